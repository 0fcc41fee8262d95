//! Laws of the definitions in specs/. Each function does nothing: its contract is the law.
ghost use Rattle.tree_events_laws.specs.event_laws.Happens.{HappensWhereTaken};
ghost use Rattle.tree_events_laws.specs.event_laws.Laws.{EdgesTell, EndedEdgesTell, TreesAreTold, UnitEdgesTell, UnitEndedEdgesTell};

/// With each number of turns, what happens by the trees is what the edges of some beginning of the run tell.
pub fn trees_are_told()
    ensures { TreesAreTold }
{}

/// What the first edges tell is a beginning of what happens by the trees.
pub fn edges_tell()
    ensures { EdgesTell }
{}

/// Where the run ends, what its edges tell is all that happens by the trees.
pub fn ended_edges_tell()
    ensures { EndedEdgesTell }
{}

/// What the first edges tell is a beginning of what happens by the trees of a unit of texts.
pub fn unit_edges_tell()
    ensures { UnitEdgesTell }
{}

/// Where the run ends, what its edges tell is all that happens by the trees of a unit of texts.
pub fn unit_ended_edges_tell()
    ensures { UnitEndedEdgesTell }
{}

/// An event happens by the trees, in a run that ends, exactly where the run takes an edge that tells it.
pub fn happens_where_taken()
    ensures { HappensWhereTaken }
{}
