//! Laws of the definitions of typing. Each function does nothing: its contract is the law.
ghost use Rattle.c_types_laws.specs.typing_fits.Laws.{ScopedExpressionsFit, UnitsFit, UnitsOfTextsFit};

/// What typing makes of a unit in which nothing is wrong is fit for lowering, where the unit's numbers are values of
/// their kinds and its places lie in files that are there.
pub fn units_fit()
    ensures { UnitsFit }
{}

/// What typing makes of a unit of texts in which nothing is wrong is fit for lowering.
pub fn units_of_texts_fit()
    ensures { UnitsOfTextsFit }
{}

/// What `type_expression` makes in a scope meets the rules for expressions in each room that has the scope's variables.
pub fn scoped_expressions_fit()
    ensures { ScopedExpressionsFit }
{}
