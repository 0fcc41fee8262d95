//! Laws of whole runs. Each function does nothing: its contract is the law.
ghost use Rattle.tree_meaning_laws.specs.tree_laws.Laws.{TreesAgree, UnendingTreesAgree, UnendingUnitsAgree, UnitsAgree};

/// The states of the automaton end so exactly where some number of turns gives that end by the tree, and every greater number
/// gives it too.
pub fn trees_agree()
    ensures { TreesAgree }
{}

/// They go on for ever exactly where no number of turns is enough.
pub fn unending_trees_agree()
    ensures { UnendingTreesAgree }
{}

/// So it is of each unit of texts in which nothing is wrong, each entry and each input.
pub fn units_agree()
    ensures { UnitsAgree }
{}

/// And so is what goes on for ever.
pub fn unending_units_agree()
    ensures { UnendingUnitsAgree }
{}
