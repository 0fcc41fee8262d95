// How a run of a function ends.
ghost use Rattle.std.specs.Prelude.{◌≡◌, ℕ, map, IfOk, IfSome, slice_index, Some, IsTrue};
ghost use Rattle.std.specs.List.{list_all};
ghost use Rattle.std.specs.Option.{option_map};
ghost use Rattle.c_meaning.specs.Starts.{fitted_words};
ghost use Rattle.c_values.specs.Kind.{is_kind, IsKind};
ghost use Rattle.c_values.specs.declared.kinds.Kind.{Kind as OneKind};
ghost use Rattle.cfa.specs.declared.parts.Variable.{Variable as OneVariable};
ghost use Rattle.c_typed_trees.specs.Fitting.{global_cells, word_kinds};
ghost use Rattle.tree_meaning.specs.Activations.{as_kind};
ghost use Rattle.tree_meaning.specs.Ends.{function_end, tree_end};
ghost use Rattle.tree_meaning.specs.Running.{FitStatements, FitUnit};
ghost use Rattle.tree_meaning.specs.Stopping.{stop_end};
ghost use Rattle.tree_meaning.specs.Tasks.{first_machine};

use crate::activation::Activation;
use crate::agenda::Agenda;
use crate::ends::TreeEnd;
use crate::machine::Machine;
use crate::numbers::fitted;
use crate::scene::Scene;
use crate::steps::run;
use crate::stop::Stop;
use crate::store::Store;
use crate::task::{StatementTask, Task};
use crate::way::Way;
use c_meaning::Input;
use c_typed_trees::{Typed, TypedFunction};
use c_values::Kind;
use containers::Vector;
use fq_core::Memory;
use std::alloc::{AllocError, Global};

/// The first values of the file's variables.
fn first_values(alloc: Global, typed: &Typed) -> Result<Vec<u64>, AllocError>
    ensures { IfOk result (λ cells. cells.items ≡ map (λ (g : OneKind × ℕ). g.1) (global_cells typed.now)) }
{
    let mut cells = Vec::new(alloc);
    for global in typed.globals.as_slice() {
        cells.extend_from_slice(&global.first)?;
    }
    Ok(cells)
}

/// The words of an input as values of the kinds of the parameters that are integers, in order.
fn words_of(
    alloc: Global,
    function: &TypedFunction,
    words: &[u64],
) -> Result<Vector<u64>, AllocError>
    requires { IsTrue (list_all (λ (v : OneVariable). is_kind v.kind) function.now.parameters) }
    ensures { IfOk result (λ values. values ≡ fitted_words words.now (word_kinds function.now)) }
{
    let mut values = Vector::new(alloc);
    let mut left = words;
    for parameter in function.parameters.as_slice() {
        if parameter.length.is_none() {
            if let Some((word, behind)) = left.split_first() {
                values.push(fitted(*word, parameter.kind))?;
                left = behind;
            }
        }
    }
    Ok(values)
}

/// How a run that goes no further ends, but for want of memory.
fn end_of(stop: Stop) -> Result<TreeEnd, Memory>
    ensures { IfOk result (λ end. stop_end stop ≡ Some end) }
{
    match stop {
        Stop::Memory => Err(Memory),
        Stop::Trapped(trap) => Ok(TreeEnd::Trapped(trap)),
        Stop::Blocked => Ok(TreeEnd::Blocked),
        Stop::TooDeep => Ok(TreeEnd::TooDeep),
        Stop::OutOfTurns => Ok(TreeEnd::OutOfTurns),
    }
}

/// What a machine holds where a function begins.
fn first_machine<'a>(
    alloc: Global,
    typed: &'a Typed,
    function: &TypedFunction,
    input: &'a Input,
    turns: u64,
) -> Result<Machine<'a>, Memory>
    requires unit { FitUnit typed.now }
    requires kinds { IsTrue (list_all (λ (v : OneVariable). is_kind v.kind) function.now.parameters) }
    ensures { IfOk result (λ m. m ≡ first_machine typed.now function.now input.now turns) }
{
    let words = words_of(alloc, function, &input.words)?;
    let cells = first_values(alloc, typed)?;
    let base = cells.len();
    if base > u32::MAX as usize {
        return Err(Memory);
    }
    let mut store = Store::new(cells, &input.answers, turns);
    store.enter(function.cells, &words)?;
    let first = Activation {
        depth: 1,
        base: base as u32,
        arrays: Vector::new(alloc),
    };
    Ok(Machine {
        scene: Scene::new(alloc, typed, first),
        values: Vector::new(alloc),
        value: 0,
        way: Way::GoesOn,
        store,
    })
}

/// What a function gives that is done, of its kind.
fn returned(machine: &Machine<'_>, base: usize, kind: Option<Kind>) -> Option<u64>
    requires { IfSome kind (λ k. IsKind k) }
    ensures { result ≡ option_map (λ k. as_kind k (slice_index machine.now.store.cells base)) kind }
{
    match kind {
        None => None,
        Some(kind) => Some(fitted(machine.store.at(base), kind)),
    }
}

/// How a function ends.
fn function_end<'a>(
    alloc: Global,
    typed: &'a Typed,
    function: &'a TypedFunction,
    input: &'a Input,
    turns: u64,
) -> Result<TreeEnd, Memory>
    requires unit { FitUnit typed.now }
    requires kinds { IsTrue (list_all (λ (v : OneVariable). is_kind v.kind) function.now.parameters) }
    requires body { FitStatements function.now.body }
    requires result { IfSome function.now.result (λ k. IsKind k) }
    ensures { IfOk result (λ end. end ≡ function_end typed.now function.now input.now turns) }
{
    let mut machine = first_machine(alloc, typed, function, input, turns)?;
    let base = machine.scene.activation().base as usize;
    let mut tasks = Agenda::new(alloc);
    tasks.push(Task::Statement(StatementTask::Block(&function.body)))?;
    match run(&mut machine, &mut tasks) {
        Err(stop) => end_of(stop),
        Ok(()) => Ok(TreeEnd::Returned {
            value: returned(&machine, base, function.result),
        }),
    }
}

/// How the function of a number ends on an input, by the meaning of its unit's trees (docs/MEANING.md) and with so many
/// turns: beginning a loop's body takes one, and so does calling a function that is defined. A unit that typing answers
/// fits. A number that no function has is `Blocked`.
///
/// # Errors
///
/// Want of memory alone. Runs of 2^64 - 1 small steps count as that.
pub fn tree_run(typed: &Typed, entry: u32, input: &Input, turns: u64) -> Result<TreeEnd, Memory>
    requires { FitUnit typed.now }
    ensures { IfOk result (λ end. end ≡ tree_end typed.now entry input.now turns) }
{
    let alloc = input.words.allocator();
    match typed.functions.get(entry as usize) {
        None => Ok(TreeEnd::Blocked),
        Some(function) => function_end(alloc, typed, function, input, turns),
    }
}
