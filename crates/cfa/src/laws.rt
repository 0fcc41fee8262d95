//! Laws of the definitions in specs/. Each function does nothing: its contract is the law.
ghost use Rattle.cfa.specs.Laws.{FittingKinds, FittingValues, OutgoingEdges, WaysOn, IndexesOfElements};

/// The kind that the rules give an expression is its kind.
pub fn fitting_kinds()
    ensures { FittingKinds }
{}

/// What an expression that meets the rules comes to is a value of its kind.
pub fn fitting_values()
    ensures { FittingValues }
{}

/// The outgoing edges of a node are those that leave it.
pub fn outgoing_edges()
    ensures { OutgoingEdges }
{}

/// A node that is no exit goes on by one edge, or by two guards of one test.
pub fn ways_on()
    ensures { WaysOn }
{}

/// An index names an element exactly where its pattern is below the array's length.
pub fn indexes_of_elements()
    ensures { IndexesOfElements }
{}
