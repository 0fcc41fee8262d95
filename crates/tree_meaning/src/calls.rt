// Calls, and the functions that they run.
ghost use Rattle.std.specs.Prelude.{◌≡◌, ◌<◌, map, IfOk, IfErr, OnOk, slice_get};
ghost use Rattle.tree_meaning.specs.declared.activation.Activation.{Activation as OneActivation};
ghost use Rattle.tree_meaning.specs.Activations.{start_of as start};
ghost use Rattle.tree_meaning.specs.Calls.{answer, called, word_values};
ghost use Rattle.tree_meaning.specs.Outcomes.{Gives, Evaluation};
ghost use Rattle.tree_meaning.specs.Running.{begun, meant_in, FitCall, FitExpressions};
ghost use Rattle.tree_meaning.specs.Tasks.{Leads, Stops};
ghost use Rattle.tree_meaning.specs.declared.task.Task.TheVariants.{Value};
ghost use Rattle.tree_meaning.specs.declared.task.ValueTask.TheVariants as task;
ghost use Rattle.tree_meaning.specs.Stopping.{IsStop};
ghost use Rattle.cfa.specs.declared.parts.Variable.{Variable as OneVariable};
ghost use Rattle.c_typed_trees.specs.declared.expression.TypedCall.{out-TypedCall};

use crate::activation::Activation;
use crate::agenda::Agenda;
use crate::machine::Machine;
use crate::numbers::fitted;
use crate::places::start_of;
use crate::rest::value_of;
use crate::scene::Scene;
use crate::stop::Stop;
use crate::store::Store;
use crate::task::{StatementTask, Task, ValueTask};
use crate::way::Way;
use c_typed_trees::{Callee, TypedCall, TypedExpr};
use cfa::{Trap, Variable};
use containers::Vector;
use std::alloc::{AllocError, Global};

/// How many activations may stand.
const MOST_ACTIVATIONS: u32 = 64;

/// The next answer, as a value of an input function's kind.
fn answered(scene: &Scene<'_>, input: u32, store: &mut Store<'_>) -> Result<u64, Stop>
    ensures made { IfOk result (λ v. answer (slice_get scene.now.unit.inputs input) store.old ≡ Gives v store.new) }
    ensures err { IfErr result (λ stop. IsStop stop (answer (slice_get scene.now.unit.inputs input) store.old)) }
{
    match scene.unit().inputs.get(input as usize) {
        None => Err(Stop::Blocked),
        Some(function) => Ok(fitted(store.take_answer(), function.result)),
    }
}

/// The places of the first cells of arrays that are lent.
fn starts_of(
    alloc: Global,
    activation: &Activation,
    arrays: &[Variable],
) -> Result<Vector<u32>, AllocError>
    ensures { IfOk result (λ starts. starts ≡ map (λ (v : OneVariable). start activation.now v.place) arrays.now) }
{
    let mut starts = Vector::new(alloc);
    for array in arrays {
        let start = start_of(activation, array.place);
        if start > u32::MAX as usize {
            return Err(AllocError);
        }
        starts.push(start as u32)?;
    }
    Ok(starts)
}

/// The activation of a function that is called.
fn called(
    scene: &Scene<'_>,
    arrays: &[Variable],
    store: &Store<'_>,
) -> Result<Activation, AllocError>
    requires { scene.now.activation.depth < 64 }
    ensures { IfOk result (λ a. a ≡ called scene.now.activation arrays.now store.now) }
{
    let activation = scene.activation();
    let base = store.len();
    if base > u32::MAX as usize {
        return Err(AllocError);
    }
    Ok(Activation {
        depth: activation.depth + 1,
        base: base as u32,
        arrays: starts_of(scene.alloc(), activation, arrays)?,
    })
}

/// The values of words in order, or the first trap.
fn values_of(
    scene: &Scene<'_>,
    words: &[TypedExpr],
    vs: &[u64],
    store: &Store<'_>,
) -> Result<Result<Vector<u64>, Trap>, AllocError>
    requires { FitExpressions words.now }
    ensures { IfOk result (λ values. word_values (map (meant_in scene.now) words.now) vs.now store.now.cells ≡ values) }
{
    let mut values = Vector::new(scene.alloc());
    let mut left = vs;
    for word in words {
        match value_of(scene, store, word, left) {
            Ok((value, behind)) => {
                values.push(value)?;
                left = behind;
            }
            Err(trap) => return Ok(Err(trap)),
        }
    }
    Ok(Ok(values))
}

/// What a call does between the first parts of its words and its function's body: it gives the activation and the words'
/// values.
fn begun(
    scene: &Scene<'_>,
    words: &[TypedExpr],
    arrays: &[Variable],
    vs: &[u64],
    store: &mut Store<'_>,
) -> Result<(Activation, Vector<u64>), Stop>
    requires { FitExpressions words.now }
    ensures made { IfOk result (λ p. (run : OneActivation → _ → Evaluation) → begun scene.now (map (meant_in scene.now) words.now) arrays.now vs.now run store.old ≡ run p.0 p.1 store.new) }
    ensures err { IfErr result (λ stop. (run : OneActivation → _ → Evaluation) → IsStop stop (begun scene.now (map (meant_in scene.now) words.now) arrays.now vs.now run store.old)) }
{
    if scene.activation().depth >= MOST_ACTIVATIONS {
        return Err(Stop::TooDeep);
    }
    match values_of(scene, words, vs, store)? {
        Err(trap) => Err(Stop::Trapped(trap)),
        Ok(values) => {
            let activation = called(scene, arrays, store)?;
            store.take_turn()?;
            Ok((activation, values))
        }
    }
}

/// The value of a call.
#[tactic(auto, using(crate::proofs::CallSteps::call_laws))]
pub(crate) fn call<'a>(
    machine: &mut Machine<'a>,
    tasks: &mut Agenda<'a>,
    tree: &'a TypedCall,
) -> Result<(), Stop>
    requires { FitCall tree.now }
    ensures made { OnOk result (Leads (Value (task.Call tree.entry)) tasks.old machine.old tasks.new machine.new) }
    ensures err { IfErr result (λ stop. Stops (Value (task.Call tree.entry)) tasks.old machine.old stop) }
{
    match tree.callee {
        Callee::Input(input) => {
            machine.value = answered(&machine.scene, input, &mut machine.store)?;
            Ok(())
        }
        Callee::Defined(callee) => {
            let outer = machine.take_values();
            tasks.push(Task::Value(ValueTask::Begin(tree, callee, outer)))?;
            tasks.push(Task::Value(ValueTask::Firsts(&tree.words)))?;
            Ok(())
        }
    }
}

/// A call of a function behind the first parts of its words.
#[tactic(auto, using(crate::proofs::CallSteps::begin_laws))]
pub(crate) fn begin<'a>(
    machine: &mut Machine<'a>,
    tasks: &mut Agenda<'a>,
    tree: &'a TypedCall,
    callee: u32,
    outer: Vector<u64>,
) -> Result<(), Stop>
    requires { FitExpressions (out-TypedCall tree.now).words }
    ensures made { OnOk result (Leads (Value (task.Begin tree.entry callee outer)) tasks.old machine.old tasks.new machine.new) }
    ensures err { IfErr result (λ stop. Stops (Value (task.Begin tree.entry callee outer)) tasks.old machine.old stop) }
{
    let (activation, words) = begun(
        &machine.scene,
        &tree.words,
        &tree.arrays,
        &machine.values,
        &mut machine.store,
    )?;
    match machine.scene.unit().functions.get(callee as usize) {
        None => Err(Stop::Blocked),
        Some(function) => {
            machine.store.enter(function.cells, &words)?;
            let caller = machine.enter(activation);
            tasks.push(Task::Value(ValueTask::Leave(caller, outer, machine.way)))?;
            tasks.push(Task::Statement(StatementTask::Block(&function.body)))?;
            machine.leave_off(Way::GoesOn);
            Ok(())
        }
    }
}

/// A function is done, and its caller goes on with its value.
#[tactic(auto, using(crate::proofs::CallSteps::leave_laws))]
pub(crate) fn leave<'a>(
    machine: &mut Machine<'a>,
    tasks: &Agenda<'a>,
    caller: Scene<'a>,
    outer: Vector<u64>,
    way: Way,
)
    ensures { Leads (Value (task.Leave caller.entry outer way)) tasks.now machine.old tasks.now machine.new }
{
    let base = machine.scene.activation().base as usize;
    machine.value = machine.store.at(base);
    machine.store.leave(base);
    machine.scene = caller;
    machine.values = outer;
    machine.way = way;
}
