//! Laws of expressions. Each function does nothing: its contract is the law.
ghost use Rattle.tree_meaning_laws.specs.expression_laws.Laws.{ExpressionsDo};

/// What is made of an expression does what the expression means.
pub fn expressions_do()
    ensures { ExpressionsDo }
{}
