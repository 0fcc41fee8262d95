// The formula of a goal.
ghost use Rattle.std.specs.Prelude.{◌≡◌, ◌+◌, ◌-◌, ◌<◌, ◌≤◌, ◌^◌, ◌↔◌, IfErr, IfOk, IsTrue, List, Some, length, slice_get};
ghost use Rattle.std.specs.Option.{IsSomeAnd};
ghost use Rattle.bit_words.specs.Words.{Grows};
ghost use Rattle.cfa.specs.Each.{Each};
ghost use Rattle.cfa.specs.Predicates.{IsPredicates};
ghost use Rattle.cfa.specs.declared.parts.Function.{Function as OneFunction};
ghost use Rattle.circuit.specs.Wires.{input_count};
ghost use Rattle.circuit.specs.declared.lit.Gate.{Gate as OneGate};
ghost use Rattle.goals.specs.GoalForm.{GoalForm};
ghost use Rattle.unwinder.specs.input_words.Worlds.{world_length};
ghost use Rattle.patterns.specs.Letters.{form};
ghost use Rattle.unwinder.specs.Unwinding.{IsUnwound};
ghost use Rattle.goal_formula.specs.Exact.{IsExact};
ghost use Rattle.goal_formula.specs.Forms.{HasWorlds};
ghost use Rattle.goal_formula.specs.Parts.{CanSay, SaysHit, most_hit_gates};
ghost use Rattle.goal_formula.specs.Sizes.{IsFormulaFault, goal_size, size_of};
ghost use Rattle.goal_formula.specs.Steps.{HasWires};

use crate::encoding::literal_formula;
use crate::goal::GoalFormula;
use crate::hitting::hit;
use crate::size::is_too_large;
use c_values::Kind;
use cfa::{Graph, Predicates};
use circuit::Circuit;
use fq_core::{Fault, Memory, Place, Refusal};
use goals::Plan;
use patterns::{Letter, Pattern};
use std::alloc::Global;
use unwinder::{Entry, Unwound};

/// The clauses that say that the entries hit a goal of this pattern. The circuit has its gates.
fn clauses(
    alloc: Global,
    circuit: &mut Circuit,
    plan: &Plan,
    pattern: &Pattern<Letter>,
    entries: &[Entry],
    parameters: &[Kind],
    answers: u32,
) -> Result<GoalFormula, Memory>
    requires entries { Each entries.now (λ k e. HasWires circuit.old e) }
    requires some { 0 < length entries.now }
    requires room { length circuit.old + most_hit_gates plan.now (form pattern.now) (length entries.now) < 2 ^ 30 }
    requires inputs { input_count circuit.old ≡ world_length parameters.now answers }
    requires answers { answers ≤ 256 }
    ensures grows { Grows circuit.old circuit.new (most_hit_gates plan.now (form pattern.now) (length entries.now)) }
    ensures formula { IfOk result (SaysHit circuit.old circuit.new entries.now plan.now (form pattern.now) parameters.now answers) }
{
    match hit(alloc, circuit, plan, pattern, entries) {
        Err(_) => Err(Memory),
        Ok(root) => literal_formula(alloc, circuit, root, parameters, answers),
    }
}

/// The formula of a goal of this pattern, whose size is within its limit. The goal's gates are cut off again.
fn kept(
    alloc: Global,
    graph: &Graph,
    unwound: &mut Unwound,
    plan: &Plan,
    pattern: &Pattern<Letter>,
) -> Result<GoalFormula, Memory>
    requires can { IsSomeAnd (slice_get graph.now.functions unwound.old.entry) (λ f. CanSay f unwound.old plan.now (form pattern.now)) }
    ensures formula { IfOk result (λ formula. (f : OneFunction) → slice_get graph.now.functions unwound.old.entry ≡ Some f → (new : List OneGate) × SaysHit unwound.old.circuit new unwound.old.entries plan.now (form pattern.now) f.parameters unwound.old.bounds.answers formula) }
    ensures unwound { unwound.new ≡ unwound.old }
{
    let function = &graph.functions()[unwound.entry as usize];
    let wires = unwound.circuit.wires();
    let made = clauses(
        alloc,
        &mut unwound.circuit,
        plan,
        pattern,
        &unwound.entries,
        &function.parameters,
        unwound.bounds.answers,
    );
    unwound.circuit.cut(wires);
    made
}

/// Whether a goal of a plan, by its number from 1, is too large to have a formula over so many pairs of node and context.
pub fn is_goal_too_large(alloc: Global, plan: &Plan, goal: u32, pairs: u32) -> Result<bool, Memory>
    requires some { 0 < goal }
    requires there { goal ≤ length plan.now.goals }
    ensures { IfOk result (λ large. (g : GoalForm) → slice_get plan.now.goals (goal - 1) ≡ Some g → (IsTrue large ↔ (8388608 < goal_size plan.now g pairs))) }
{
    let place = goal as usize - 1;
    let pattern = plan.goals[place].pattern(alloc)?;
    Ok(is_too_large(plan, &pattern, pairs))
}

/// The formula of a goal of a plan, by its number from 1, over an unwinding: exact for the goal, with the variables of the
/// input bits. The unwinding stays as it was, so that the formula of a goal is the same whatever goals came before.
///
/// # Errors
///
/// Code 82 at the limit of 8,388,608 says that the goal's size is above it. It comes wherever that is so, before a gate is
/// made, unless memory runs out first.
pub fn formula(
    alloc: Global,
    graph: &Graph,
    predicates: &Predicates,
    unwound: &mut Unwound,
    plan: &Plan,
    goal: u32,
) -> Result<GoalFormula, Fault>
    requires predicates { IsPredicates graph.now predicates.now }
    requires unwound { IsSomeAnd (slice_get graph.now.functions unwound.old.entry) (λ f. IsUnwound graph.now predicates.now f unwound.old.entry unwound.old.bounds unwound.old.ends unwound.old) }
    requires some { 0 < goal }
    requires there { goal ≤ length plan.now.goals }
    ensures accepted { IfOk result (λ formula. (f : OneFunction) (g : GoalForm) → slice_get graph.now.functions unwound.old.entry ≡ Some f → slice_get plan.now.goals (goal - 1) ≡ Some g → IsExact graph.now predicates.now f unwound.old.bounds unwound.old.ends plan.now g formula) }
    ensures small { IfOk result (λ formula. formula.formula.variables < 2 ^ 30) }
    ensures worlds { IfOk result (HasWorlds unwound.old.circuit) }
    ensures size { IfOk result (λ _. (g : GoalForm) → slice_get plan.now.goals (goal - 1) ≡ Some g → goal_size plan.now g unwound.old.pairs ≤ 8388608) }
    ensures refused { IfErr result (λ fault. (g : GoalForm) → slice_get plan.now.goals (goal - 1) ≡ Some g → IsFormulaFault (goal_size plan.now g unwound.old.pairs) fault) }
    ensures unwound { unwound.new ≡ unwound.old }
{
    graph.well_formed();
    let place = goal as usize - 1;
    let pattern = plan.goals[place].pattern(alloc)?;
    if is_too_large(plan, &pattern, unwound.pairs) {
        return Err(Fault::Refused(Refusal {
            code: 82,
            place: Place::Limit { number: 8_388_608 },
        }));
    }
    match kept(alloc, graph, unwound, plan, &pattern) {
        Ok(formula) => Ok(formula),
        Err(Memory) => Err(Fault::Memory),
    }
}
