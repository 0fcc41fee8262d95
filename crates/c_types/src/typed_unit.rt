// The typing of a whole unit.
ghost use Rattle.std.specs.Prelude.{◌≡◌, ℕ, List, [], Option, None, Ok, IfOk, IsErrOf};
ghost use Rattle.fq_core.specs.declared.refusal.Place.{Place};
ghost use Rattle.fq_core.specs.Refusals.{refusal, IsUnlessMemory};
ghost use Rattle.c_type_rules.specs.Faults.{first_of};
ghost use Rattle.c_types.specs.Refusal.{IsRefused, IsTyped, place_of_fault, refusal_of, outcome};
ghost use Rattle.c_types.specs.Units.{faults_of, typed_of};

use crate::program::{Program, declarations, program_of};
use crate::units::items;
use c_parse::{Item, Unit};
use c_type_rules::{Cases, Found, Names, Scopes, Typer};
use c_typed_trees::Typed;
use fq_core::{Fault, Place, Refusal};
use std::alloc::Global;

fn place_of_fault(found: Found) -> Place
    ensures { result ≡ place_of_fault found }
{
    match found.code {
        34 => Place::Limit { number: 1024 },
        37 => Place::Limit { number: 16384 },
        _ => Place::Source {
            file: found.span.file,
            line: found.span.line,
        },
    }
}

fn refusal_of(found: Found) -> Fault
    ensures { result ≡ refusal_of found }
{
    Fault::Refused(Refusal {
        code: found.code,
        place: place_of_fault(found),
    })
}

// The typed tree of a unit, or its first fault.
#[tactic(auto, using(crate::proofs::UnitLaws::outcome_laws))]
fn typed_unit(alloc: Global, trees: &[Item]) -> Result<Typed, Fault>
    ensures { IsUnlessMemory result (outcome trees.now) }
{
    let program = program_of(alloc, trees)?;
    let mut typer = Typer {
        bound: Scopes::new(alloc),
        labels: Names::new(alloc),
        cases: Cases::new(alloc),
        level: 0,
        local: 0,
        temporary: 0,
        fault: None,
    };
    let parts = items(&mut typer, alloc, &program, trees)?;
    if let Some(found) = typer.fault {
        return Err(refusal_of(found));
    }
    let declared = declarations(alloc, trees)?.into_vector();
    let Program {
        defined: _defined,
        inputs,
    } = program;
    Ok(Typed {
        globals: parts.globals,
        functions: parts.functions,
        inputs: inputs.list,
        declared,
    })
}

/// The typed tree of a unit (ISO/IEC 9899:2011, 6.2 to 6.9).
///
/// Of all that is wrong in the unit it refuses what stands first, by the file and the first byte of the token, and of
/// what stands at one place the least code: a `return`, `break` or `continue` that is misplaced or a parameter without
/// a name (29), a name that is not declared (30) or is there twice (31), a wrong number of arguments (32), what is no
/// integer, array or function where one is needed (33), the length of an array or of its list (34, with the limit), an
/// array argument of another length or kind (35), too many cells (37, with the limit), what is no constant expression
/// or has no value (38), and a call of a function that is neither defined nor an input (39).
pub fn check(alloc: Global, unit: Unit) -> Result<Typed, Fault>
    // What is answered is the typed tree of a unit in which nothing is wrong.
    ensures accepted { IfOk result (λ typed. IsTyped unit.items typed) }
    // The typed tree is answered where nothing is wrong.
    ensures accepts { faults_of unit.items ≡ [] → IsUnlessMemory result (Ok (typed_of unit.items)) }
    // A refusal has its cause, which no other fault of the unit is before.
    ensures refused { (code : ℕ) (p : Place) → IsErrOf result (refusal code p) → IsRefused unit.items code p }
{
    typed_unit(alloc, unit.items.as_slice())
}
