//! Laws of the definitions in specs/. Each function does nothing: its contract is the law.
ghost use Rattle.c_lower_rules.specs.graph_of.Laws.{GraphsAreOnce};

/// No walk over the graph of a typed unit comes to one pair of node and context twice.
pub fn graphs_are_once()
    ensures { GraphsAreOnce }
{}
