//! What follows from the definitions alone.
ghost use Rattle.std.specs.Prelude.{◌≡◌, List};
ghost use Rattle.c_parse.specs.declared.sign.Terminal.{Terminal};
ghost use Rattle.c_parse.specs.declared.expr.ExprTree.{ExprTree};
ghost use Rattle.c_parse.specs.declared.unit.Item.{Item};
ghost use Rattle.c_parse.specs.Grammar.{DerivesChoice};
ghost use Rattle.c_parse.specs.Items.{DerivesItems};
ghost use Rattle.c_parse.specs.Expression.{IsExpression, IsRefusedExpression};
ghost use Rattle.c_parse.specs.UnitForm.{IsUnit, IsRefusedUnit};
ghost use Rattle.c_parse.specs.Laws.{HasOneOutcome};

/// Tokens spell at most one expression.
pub fn one_expression()
    ensures { (ts : List Terminal) (t u : ExprTree) → DerivesChoice t ts → DerivesChoice u ts → t ≡ u }
{}

/// Tokens spell at most one list of items.
pub fn one_unit()
    ensures { (ts : List Terminal) (is js : List Item) → DerivesItems is ts → DerivesItems js ts → is ≡ js }
{}

/// Tokens are accepted as one expression, or refused with one code and place.
pub fn one_expression_outcome()
    ensures { (ts : List Terminal) → HasOneOutcome (IsExpression ts) (IsRefusedExpression ts) }
{}

/// Tokens are accepted as one unit, or refused with one code and place.
pub fn one_unit_outcome()
    ensures { (ts : List Terminal) → HasOneOutcome (IsUnit ts) (IsRefusedUnit ts) }
{}
