//! What follows from the definitions alone. Each function does nothing else: its contract is the law.
ghost use Rattle.std.specs.Prelude.{ℕ, List};
ghost use Rattle.predicates.specs.Laws.{IsReadOnce, Narrowing, OneOutcome, PredicatesFit};

use c_lex::one_reading;
use c_parse::laws::one_expression_outcome;
use c_types_laws::tree_contents::laws::expressions_of_texts;
use c_types_laws::typing_fits::laws::scoped_expressions_fit;

/// A text is read as one expression, or isn't read.
pub fn one_tree()
    ensures { (text : List ℕ) → IsReadOnce text }
{
    one_reading();
    one_expression_outcome();
}

/// Texts have one list of predicates beside an automaton, or are refused with one code and place.
pub fn one_outcome()
    ensures { OneOutcome }
{
    one_tree();
}

/// The predicates of texts beside an automaton go with it: each expression meets the rules for expressions in every
/// function that has a node of its scope.
pub fn predicates_fit()
    ensures { PredicatesFit }
{
    expressions_of_texts();
    scoped_expressions_fit();
}

/// What an expression is in a scope depends on those variables alone that have one of its names.
pub fn narrowing()
    ensures { Narrowing }
{}
