//! How a function ends by the meaning of its trees, with how many turns, where inputs don't leave bounds and where ends are
//! refuted (ISO/IEC 9899:2011, 5.1.2.3).
//!
//! It has no code; `specs/tree_ending_laws/Laws` has the laws. It stands on `tree_laws`, by which the trees and the automaton have the same
//! ends, and on `ending_laws`, by which runs that stay within bounds end.

ghost use Rattle.bounds_check_laws.specs.tree_ending_laws.Laws.{TurnsAboveEdges, UnitTurnsAboveEdges, TreesAndPathsAgree, StayingTreesEnd, NoTreeTraps, EachTreeReturns};

/// More turns than the run has edges give its end by the tree.
pub fn turns_above_edges()
    ensures { TurnsAboveEdges }
{}

/// So it is of each unit of texts in which nothing is wrong.
pub fn unit_turns_above_edges()
    ensures { UnitTurnsAboveEdges }
{}

/// Where an input's path isn't cut, one turn more than the limit gives its end by the tree.
pub fn trees_and_paths_agree()
    ensures { TreesAndPathsAgree }
{}

/// An input that doesn't leave the bounds has one end by the tree, with 50,000 turns and with any greater number.
pub fn staying_trees_end()
    ensures { StayingTreesEnd }
{}

/// Where each end but a return is refuted with traps counted, no input ends in a trap by the tree.
pub fn no_tree_traps()
    ensures { NoTreeTraps }
{}

/// Where each end but a return is refuted with any end counted, every input returns by the tree.
pub fn each_tree_returns()
    ensures { EachTreeReturns }
{}
