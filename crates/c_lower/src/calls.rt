// The edges of calls.
ghost use Rattle.std.specs.Prelude.{◌≡◌, map, IfOk, IfErr, OnOk};
ghost use Rattle.cfa.specs.declared.parts.Variable.{Variable as OneVariable};
ghost use Rattle.c_typed_trees.specs.declared.expression.Callee.TheVariants as callees;
ghost use Rattle.c_lower_rules.specs.graph_of.Builder.{after};
ghost use Rattle.c_lower_rules.specs.graph_of.Expressions.{array_of, call_edges};
ghost use Rattle.c_lower.specs.Stopping.{IsStop};

use crate::edges::step;
use crate::operands::{joined, split_operands};
use crate::places::array_of;
use crate::stop::Stop;
use c_lower_rules::graph_of::{Around, Operand, Parts};
use c_typed_trees::Callee;
use cfa::{ArrayPlace, CellPlace, Operation, Variable};
use containers::{TryClone, Vector};
use fq_core::Name;
use std::alloc::{AllocError, Global};

fn names_of(alloc: Global, arrays: &[Variable]) -> Result<Vector<Name>, AllocError>
    ensures { IfOk result (λ names. names ≡ map (λ (v : OneVariable). v.name) arrays.now) }
{
    let mut names = Vector::new(alloc);
    for array in arrays {
        names.push(array.name.try_clone(alloc)?)?;
    }
    Ok(names)
}

fn places_of(alloc: Global, arrays: &[Variable]) -> Result<Vector<ArrayPlace>, AllocError>
    ensures { IfOk result (λ places. places ≡ map (λ (v : OneVariable). array_of v.place) arrays.now) }
{
    let mut places = Vector::new(alloc);
    for array in arrays {
        places.push(array_of(array.place))?;
    }
    Ok(places)
}

/// The call edge to a function's entry, and the return edge from its exit.
#[tactic(auto, using(crate::proofs::EdgeLaws::call_laws))]
fn defined_call(
    alloc: Global,
    around: &Around,
    callee: u32,
    arrays: &[Variable],
    words: Vector<Operand>,
    dest: Option<CellPlace>,
    a: u32,
    z: u32,
    parts: &mut Parts,
) -> Result<(), Stop>
    ensures made { OnOk result (parts.new ≡ after (call_edges (callees.Defined callee) arrays.now around.now words dest a z) parts.old) }
    ensures err { IfErr result (λ stop. IsStop stop (after (call_edges (callees.Defined callee) arrays.now around.now words dest a z) parts.old)) }
{
    let number = parts.edges.len();
    if number > u32::MAX as usize || callee >= u32::MAX / 2 {
        return Err(Stop::Memory);
    }
    let (values, read) = split_operands(alloc, words)?;
    let reads = joined(read, names_of(alloc, arrays)?)?;
    let call = Operation::Call {
        callee,
        words: values,
        arrays: places_of(alloc, arrays)?,
    };
    step(
        around,
        call,
        Vector::new(alloc),
        reads,
        a,
        2 * callee,
        parts,
    )?;
    let home = Operation::Return {
        call: number as u32,
        dest,
    };
    let (none, nothing) = (Vector::new(alloc), Vector::new(alloc));
    step(around, home, none, nothing, 2 * callee + 1, z, parts)
}

/// The edges of a call with its words, whose result is put into a cell.
pub(crate) fn call_edges(
    alloc: Global,
    around: &Around,
    callee: Callee,
    arrays: &[Variable],
    words: Vector<Operand>,
    dest: Option<CellPlace>,
    a: u32,
    z: u32,
    parts: &mut Parts,
) -> Result<(), Stop>
    ensures made { OnOk result (parts.new ≡ after (call_edges callee arrays.now around.now words dest a z) parts.old) }
    ensures err { IfErr result (λ stop. IsStop stop (after (call_edges callee arrays.now around.now words dest a z) parts.old)) }
{
    match callee {
        Callee::Defined(callee) => {
            defined_call(alloc, around, callee, arrays, words, dest, a, z, parts)
        }
        Callee::Input(input) => {
            let answer = Operation::Answer { input, dest };
            let (none, nothing) = (Vector::new(alloc), Vector::new(alloc));
            step(around, answer, none, nothing, a, z, parts)
        }
    }
}
