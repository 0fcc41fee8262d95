//! Laws of statements. Each function does nothing: its contract is the law.
ghost use Rattle.tree_meaning_laws.specs.statement_laws.Laws.{StatementsDo};

/// What is made of a statement does what the statement means.
pub fn statements_do()
    ensures { StatementsDo }
{}
