//! What follows from the limits.
ghost use Rattle.goal_formula.specs.Laws.{UnwindingsLeaveRoom, VariablesAreFew};

/// Where the pairs of node and context that are reached, their size sum and a goal's size are within their limits, the most
/// variables of the goal's formula are fewer than 2^30.
pub fn variables_are_few()
    ensures { VariablesAreFew }
{}

/// The circuit of an unwinding has room for 48 gates for each unit of the greatest size of a goal, before it has 2^30 wires.
pub fn unwindings_leave_room()
    ensures { UnwindingsLeaveRoom }
{}
