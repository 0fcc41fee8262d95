// The inputs so far, with one more.
ghost use Rattle.std.specs.Prelude.{◌≡◌, ◌+◌, ◌≤◌, ◌∷◌, ◌++◌, List, Result, Err, IfErr, OnOk, vec_len};
ghost use Rattle.c_meaning.specs.declared.input.Input.{Input};
ghost use Rattle.input_text.specs.declared.misfit.Misfit.{Misfit};
ghost use Rattle.fq_core.specs.Refusals.{IfRefused};
ghost use Rattle.input_text.specs.Outcome.{after, misfit_code, most_inputs, numbered};

use crate::misfit::Misfit as Wrong;
use c_meaning::Input as Given;
use fq_core::{Fault, Place, Refusal};

const MOST_INPUTS: usize = 10_000;

fn code_of(misfit: Wrong) -> u16
    ensures { result ≡ misfit_code misfit }
{
    match misfit {
        Wrong::Shape => 51,
        Wrong::Range => 52,
    }
}

/// Adds what the next part of a text gives to the inputs before it.
pub fn add(inputs: &mut Vec<Given>, part: Result<Given, Wrong>) -> Result<(), Fault>
    requires { vec_len inputs.old ≤ most_inputs }
    ensures few { vec_len inputs.new ≤ most_inputs }
    ensures added { OnOk result ((parts : List (Result Input Misfit)) → after inputs.old.items (numbered (vec_len inputs.old + 1) (part ∷ parts)) ≡ after inputs.new.items (numbered (vec_len inputs.new + 1) parts)) }
    ensures refused { IfErr result (λ fault. IfRefused fault (λ refusal. (parts : List (Result Input Misfit)) → numbered (vec_len inputs.old + 1) (part ∷ parts) ≡ Err refusal)) }
{
    let number = inputs.len() as u32 + 1;
    match part {
        Err(misfit) => Err(Fault::Refused(Refusal {
            code: code_of(misfit),
            place: Place::InputNumber { number },
        })),
        Ok(_) if inputs.len() >= MOST_INPUTS => Err(Fault::Refused(Refusal {
            code: 53,
            place: Place::Limit {
                number: MOST_INPUTS as u64,
            },
        })),
        Ok(input) => {
            inputs.push(input)?;
            Ok(())
        }
    }
}
