//! The automaton of a unit puts what a call gives into plain cells alone: no return edge has an array's element as its
//! destination (ISO/IEC 9899:2011, 6.5.2.2).
//!
//! It has no code; `specs/plain_returns/Laws` has the laws. It stands on `graph_of` for the table of edges, on `c_front` for the automaton of
//! texts, and on `ending_laws`, whose laws ask for it of an entry.

ghost use Rattle.bounds_check_laws.specs.plain_returns.Laws.{GraphsReturnPlainly, AutomataReturnPlainly};

/// So it is of the automaton of each typed unit.
pub fn graphs_return_plainly()
    ensures { GraphsReturnPlainly }
{}

/// And of the automaton of texts.
pub fn automata_return_plainly()
    ensures { AutomataReturnPlainly }
{}
