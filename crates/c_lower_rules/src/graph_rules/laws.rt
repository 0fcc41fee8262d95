//! Laws of the definitions in specs/. Each function does nothing: its contract is the law.
ghost use Rattle.c_lower_rules.specs.graph_rules.Laws.{GraphsFit};

/// What the table makes of a typed unit that fits is a control flow automaton.
pub fn graphs_fit()
    ensures { GraphsFit }
{}
