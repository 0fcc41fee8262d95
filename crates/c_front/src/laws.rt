//! What follows from the definitions alone.
ghost use Rattle.std.specs.Prelude.{List};
ghost use Rattle.c_lex.specs.declared.token.SourceText.{SourceText};
ghost use Rattle.c_front.specs.Codes.{RefusedByTheseCodes};
ghost use Rattle.c_front.specs.Laws.{HasOneOutcome};

use c_lex::one_reading;
use c_parse::laws::one_unit_outcome;
use c_type_rules::laws::first_of_faults;
use c_types_laws::typing_faults::laws::{faults_of_texts, one_refusal_of_types};

/// Texts have one automaton, or are refused with one code at one place.
pub fn one_outcome()
    ensures { (texts : List SourceText) → HasOneOutcome texts }
{
    one_reading();
    one_unit_outcome();
    first_of_faults();
    one_refusal_of_types();
}

/// Texts are refused with a code of tokens (10 to 15), of syntax (20 to 22) or of types (29 to 35, 37 to 39), or with 41.
pub fn refused_by_these_codes()
    ensures { RefusedByTheseCodes }
{
    faults_of_texts();
}
