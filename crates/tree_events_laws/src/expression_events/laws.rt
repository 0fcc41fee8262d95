//! A law of the definitions in specs/. The function does nothing: its contract is the law.
ghost use Rattle.tree_events_laws.specs.expression_events.Laws.{ExpressionsTell};

/// The edges of an expression that fits tell what happens in it.
pub fn expressions_tell()
    ensures { ExpressionsTell }
{}
