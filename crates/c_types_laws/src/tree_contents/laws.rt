//! What follows from the grammar. Each function does nothing: its contract is the law.
ghost use Rattle.c_types_laws.specs.tree_contents.Contents.{ItemsHoldTheirTokens, ExpressionsHoldTheirTokens, ExpressionsOfTexts, UnitsOfTexts};

/// A test of numbers and a test of places that the tokens of a unit pass are passed by all in its trees.
pub fn items_hold_their_tokens()
    ensures { ItemsHoldTheirTokens }
{}

/// The same for an expression.
pub fn expressions_hold_their_tokens()
    ensures { ExpressionsHoldTheirTokens }
{}

/// The numbers of the units of texts are values of their kinds, and their places lie in these texts; kinds are kinds.
pub fn units_of_texts()
    ensures { UnitsOfTexts }
{}

/// The numbers of an expression of texts are values of their kinds, and its places lie in these texts.
pub fn expressions_of_texts()
    ensures { ExpressionsOfTexts }
{}
