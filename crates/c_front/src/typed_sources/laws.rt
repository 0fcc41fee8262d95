//! What follows from the definitions alone.
ghost use Rattle.std.specs.Prelude.{List};
ghost use Rattle.c_lex.specs.declared.token.SourceText.{SourceText};
ghost use Rattle.c_front.specs.typed_sources.Laws.{HasOneOutcome};

use c_lex::one_reading;
use c_parse::laws::one_unit_outcome;
use c_type_rules::laws::first_of_faults;
use c_types_laws::typing_faults::laws::one_refusal_of_types;

/// Texts have one typed tree, or are refused with one code at one place.
pub fn one_outcome()
    ensures { (texts : List SourceText) → HasOneOutcome texts }
{
    one_reading();
    one_unit_outcome();
    first_of_faults();
    one_refusal_of_types();
}
