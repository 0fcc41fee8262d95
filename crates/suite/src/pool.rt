// Inputs that are run beside the search.
ghost use Rattle.std.specs.Prelude.{◌≡◌, ◌-◌, ℕ, List, IfOk, IfSome, IsTrue, map};
ghost use Rattle.c_values.specs.declared.kinds.Kind.{Kind as OneKind};
ghost use Rattle.suite.specs.Inside.{IsProper};

use crate::candidates::{Candidates, is_within};
use c_meaning::Input;
use c_values::Kind;
use containers::{TryClone, Vector};
use fq_core::Memory;
use measurer::Measurer;
use path_runner::{PathRecord, trace_run};
use std::alloc::{AllocError, Global};
use suite_problem::Given;

/// Inputs that are run beside the search of goals: of the candidates that were tried those whose runs count and are within the
/// bounds, with the answers alone that these read, what early searches made, and the goals that they hit.
#[derive(Drop)]
pub struct Pool {
    candidates: Candidates,
    /// How many candidates were tried.
    pub(crate) tried: u64,
    /// How many edges their runs took.
    edges: u64,
    pub(crate) measurer: Measurer,
    pub(crate) inputs: Vector<Input>,
    /// How many candidates were tried since one hit a goal that none before it did.
    fruitless: u64,
    /// By goal, whether it is known that no input at all hits it.
    pub(crate) refuted: Vec<bool>,
    /// Whether each goal that is still open was searched with the whole budget.
    pub(crate) are_spent: bool,
}

/// With a budget below this one there is one search alone.
pub(crate) const LEAST: u64 = 1000;

/// How many candidates of a pool are tried for a budget before goals are searched: one for a thousand moves.
pub(crate) fn first_count(budget: u64) -> u64 {
    budget / 1000
}

/// How many edges their runs may take: one for ten moves.
pub(crate) fn first_edges(budget: u64) -> u64 {
    budget / 10
}

/// How many of them in turn may hit no goal that is still open, before the others wait until a goal isn't decided by a short
/// search: one for ten thousand moves.
pub(crate) fn first_patience(budget: u64) -> u64 {
    budget / 10_000
}

/// How many times as many candidates, and edges, are tried before a goal stays undecided.
pub(crate) const LATER: u64 = 10;

/// The values of the answers that a run reads.
pub(crate) fn values_of(alloc: Global, taken: &[(Kind, u64)]) -> Result<Vector<u64>, AllocError>
    ensures { IfOk result (λ values. values ≡ map (λ (answer : OneKind × ℕ). answer.1) taken.now) }
{
    let values: Vec<u64> = taken.iter().map(|answer| answer.1).collect(alloc)?;
    Ok(Vector::from_vec(values))
}

/// The same input.
fn copy_of(alloc: Global, input: &Input) -> Result<Input, Memory>
    ensures { IfOk result (λ copy. copy ≡ input.now) }
{
    let words = input.words.try_clone(alloc)?;
    let answers = input.answers.try_clone(alloc)?;
    Ok(Input { words, answers })
}

/// Whether a run that was recorded counts and is within the bounds.
fn is_proper(alloc: Global, given: &Given, path: &PathRecord) -> Result<bool, Memory>
    ensures { IfOk result (λ proper. IsTrue proper → IsProper given.now path.now) }
{
    if !path.end.is_counted(given.ends) {
        return Ok(false);
    }
    let entry = given.planned.entry;
    is_within(
        alloc,
        entry.graph,
        entry.function,
        path.edges.as_slice(),
        &given.bounds,
    )
}

/// How many candidates were tried in turn that hit no new goal, when a run was measured: none, where the last one that was
/// added is the first that hits some goal.
fn fruitless_after(measurer: &Measurer, fruitless: u64) -> u64 {
    let runs = measurer.hits();
    let Some(goals) = runs.last() else {
        return fruitless;
    };
    for goal in goals.iter() {
        if let Some(number) = measurer.first(*goal) {
            if number as usize == runs.len() {
                return 0;
            }
        }
    }
    fruitless
}

impl Pool {
    ghost use Rattle.std.specs.Prelude.{◌≡◌, ◌+◌, ◌<◌, ◌^◌, List, ℕ, IfOk, IfSome, IsTrue};
    ghost use Rattle.patterns.specs.Paths.{IsPath};
    ghost use Rattle.measurer_hits.specs.hits.Hits.{AreHits, path_in};
    ghost use Rattle.suite.specs.Pool.{IsForGoal, IsNoneFor, IsNoted};
    ghost use Rattle.suite.specs.Standing.{IsPoolOf, IsPooledOf};

    /// The pool of a plan's goals from an entry, of which nothing was tried.
    pub(crate) fn new(alloc: Global, given: &Given) -> Result<Pool, Memory>
        ensures { IfOk result (IsPoolOf given.now) }
    {
        let entry = given.planned.entry;
        let plan = &given.planned.plan;
        let candidates = Candidates::new(alloc, entry.graph, entry.number)?;
        let measurer = Measurer::new(alloc, plan)?;
        let refuted = vec![in alloc; false; plan.goals.len()]?;
        Ok(Pool {
            candidates,
            tried: 0,
            edges: 0,
            measurer,
            inputs: Vector::new(alloc),
            fruitless: 0,
            refuted,
            are_spent: false,
        })
    }

    /// Notes that no input at all hits a goal.
    pub(crate) fn refute(&mut self, goal: u32)
        ensures { IsNoted self.old self.new goal }
    {
        let place = (goal as usize).saturating_sub(1);
        if place >= self.refuted.len() {
            return;
        }
        self.refuted[place] = true;
    }

    /// Whether it was noted that no input at all hits a goal.
    pub(crate) fn is_refuted(&self, goal: u32) -> bool
        ensures { IsTrue result → IsNoneFor self.now goal }
    {
        let place = (goal as usize).saturating_sub(1);
        let refuted = self.refuted.as_slice();
        if place >= refuted.len() {
            return false;
        }
        refuted[place]
    }

    /// Whether an input of the pool hits a goal, or none hits it at all.
    pub(crate) fn is_closed(&self, goal: u32) -> bool {
        self.measurer.first(goal).is_some() || self.is_refuted(goal)
    }

    /// Whether more than one of so many goals is open.
    pub(crate) fn are_several_open(&self, goals: u32) -> bool {
        let mut found = false;
        for place in 0..goals {
            if !self.is_closed(place.saturating_add(1)) {
                if found {
                    return true;
                }
                found = true;
            }
        }
        false
    }

    /// The first input of the pool that hits a goal.
    pub(crate) fn first(&self, alloc: Global, goal: u32) -> Result<Option<Input>, Memory>
        ensures { IfOk result (λ found. IfSome found (IsForGoal self.now goal)) }
    {
        let Some(number) = self.measurer.first(goal) else {
            return Ok(None);
        };
        let place = (number as usize).saturating_sub(1);
        let Some(input) = self.inputs.get(place) else {
            return Ok(None);
        };
        Ok(Some(copy_of(alloc, input)?))
    }

    /// Adds an input with its run, which is measured. Where memory runs out the pool is as it was.
    pub(crate) fn add(
        &mut self,
        given: &Given,
        run: &PathRecord,
        input: Input,
    ) -> Result<(), Memory>
        requires pool { IsPoolOf given.now self.old }
        requires path { IsPath (path_in run.now) }
        requires made { (numbers : List ℕ)
            → AreHits given.now.planned.plan given.now.ends run.now numbers
            → IsPooledOf given.now input numbers }
        ensures { IsPoolOf given.now self.new }
    {
        self.inputs.push(input)?;
        match self.measurer.add(&given.planned.plan, run, given.ends) {
            Ok(()) => Ok(()),
            Err(Memory) => {
                let _unmeasured = self.inputs.pop();
                Err(Memory)
            }
        }
    }

    /// Runs the next candidate, over at most so many edges, and adds it where its run counts and is within the bounds.
    pub(crate) fn try_next(
        &mut self,
        alloc: Global,
        given: &Given,
        limit: u64,
    ) -> Result<(), Memory>
        requires few { limit + 1 < 2 ^ 64 }
        requires pool { IsPoolOf given.now self.old }
        ensures { IsPoolOf given.now self.new }
    {
        let entry = given.planned.entry;
        let predicates = &given.planned.predicates;
        entry.graph.well_formed();
        let kinds = entry.function.parameters.as_slice();
        let input = self
            .candidates
            .input(alloc, kinds, given.bounds.answers, self.tried)?;
        self.tried = self.tried.wrapping_add(1);
        let path = trace_run(alloc, entry.graph, entry.number, &input, predicates, limit)?;
        self.edges = self.edges.saturating_add(path.edges.len() as u64);
        self.fruitless = self.fruitless.saturating_add(1);
        if !is_proper(alloc, given, &path)? {
            return Ok(());
        }
        let words = input.words;
        let answers = values_of(alloc, path.taken.as_slice())?;
        self.add(given, &path, Input { words, answers })?;
        self.fruitless = fruitless_after(&self.measurer, self.fruitless);
        Ok(())
    }

    /// Whether the runs of all candidates took so many edges, or so many of them in turn hit no goal that none before them did.
    pub(crate) fn is_worn(&self, edges: u64, patience: u64) -> bool {
        self.edges >= edges || self.fruitless >= patience
    }
}
