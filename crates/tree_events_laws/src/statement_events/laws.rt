//! A law of the definitions in specs/. The function does nothing: its contract is the law.
ghost use Rattle.tree_events_laws.specs.statement_events.Laws.{StatementsTell};

/// The edges of a statement that fits tell what happens in it.
pub fn statements_tell()
    ensures { StatementsTell }
{}
