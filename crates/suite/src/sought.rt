// A goal that is sought.
ghost use Rattle.std.specs.Prelude.{◌≡◌, IfErr, IfOk, IfSome, IsTrue, length};
ghost use Rattle.fq_core.specs.Refusals.{IfRefused, refusal};
ghost use Rattle.fq_core.specs.declared.refusal.Place.TheVariants as place;
ghost use Rattle.goal_formula.specs.Forms.{HasWorlds};
ghost use Rattle.goals.specs.GoalForm.{GoalForm};
ghost use Rattle.search_lemmas.specs.Giving.{SaysTheSame};
ghost use Rattle.search_lemmas.specs.Known.{IsRight};
ghost use Rattle.suite.specs.Seeking.{CanTurn, CannotUnwind, HasRun, IsFormulaFor, IsMadeAs, IsMadeFrom, IsNoneFrom, IsRecordOf, IsRefused, IsSmall, IsTurned, IsUnwindingOf, IsWithin};

use crate::pool::Pool;
use c_meaning::Input;
use fq_core::{Fault, Memory, Place, Refusal};
use goal_formula::{GoalFormula, formula, is_goal_too_large};
use path_runner::{PathRecord, trace_run};
use search_lemmas::{Given as WithLessons, Lessons, Refutation};
use std::alloc::Global;
use std::marker::Model;
use suite_problem::{Given, Goal};
use unwinder::{Unwound, unwind};

/// A goal that is sought: the unwinding of what is given, and the inputs that are run beside the search.
#[derive(Drop)]
pub struct Sought<'a> {
    pub(crate) goal: Goal<'a>,
    pub(crate) unwound: Unwound,
    pub(crate) pool: Pool,
    pub(crate) lessons: Lessons,
}

impl<'a> Model for Sought<'a> {
    ghost use Rattle.std.specs.Coded.{codes};
    ghost use Rattle.std.proofs.Props.{props};
    ghost use Rattle.cfa.specs.contracts.expr.CellPlace as place;
    ghost use Rattle.cfa.specs.contracts.expr.Expr as expr;
    ghost use Rattle.patterns.specs.contracts.letter.Letter as letter;
    ghost use Rattle.patterns.specs.contracts.pattern.Pattern as pattern;
    ghost use Rattle.suite.specs.Seeking.{Seeking};
    ghost use Rattle.suite.specs.Standing.{IsSought};

    ghost Value = { Seeking };

    ghost coded = { Prim.hlevel (
      codes,
      props,
      place.the_row.coded,
      expr.the_row.coded,
      (pattern.the_row letter.the_row).coded,
    ) };

    ghost view = { λ s. record { goal = s.goal; pairs = s.unwound.pairs } };

    ghost invariant = { λ s. IsSought s.goal s.unwound s.pool s.lessons };
}

/// Says that a goal is too large.
pub(crate) fn too_large() -> Fault
    ensures { result ≡ refusal 82 (place.Limit 8388608) }
{
    Fault::Refused(Refusal {
        code: 82,
        place: Place::Limit { number: 8_388_608 },
    })
}

/// The unwinding of what is given.
pub(crate) fn unwinding(alloc: Global, given: &Given) -> Result<Unwound, Fault>
    ensures accepted { IfOk result (IsUnwindingOf given.now) }
    ensures refused { IfErr result (CannotUnwind given.now) }
{
    let entry = given.planned.entry;
    let predicates = &given.planned.predicates;
    unwind(
        alloc,
        entry.graph,
        entry.number,
        predicates,
        given.bounds,
        given.ends,
    )
}

/// The formula of a goal over an unwinding.
fn formula_over(alloc: Global, goal: Goal, unwound: &mut Unwound) -> Result<GoalFormula, Memory>
    requires unwound { IsUnwindingOf goal.given.now unwound.old }
    requires small { IsSmall goal unwound.old.pairs }
    ensures exact { IfOk result (IsFormulaFor goal.entry) }
    ensures worlds { IfOk result (HasWorlds unwound.old.circuit) }
    ensures same { unwound.new ≡ unwound.old }
{
    let planned = &goal.given.planned;
    let graph = planned.entry.graph;
    match formula(
        alloc,
        graph,
        &planned.predicates,
        unwound,
        &planned.plan,
        goal.number,
    ) {
        Ok(formula) => Ok(formula),
        Err(Fault::Memory) => Err(Memory),
        // The size was tested where the goal began to be sought, before anything was shown of it.
        Err(Fault::Refused(_)) => unreachable!(),
    }
}

impl<'a> Sought<'a> {
    /// Unwinds what is given, for a goal of it.
    ///
    /// # Errors
    ///
    /// Codes 80 and 81 are those of the unwinding. Code 82 at the limit of 8,388,608 says that the goal's size is above it.
    /// Each comes wherever it is so, in this order, unless memory runs out first.
    pub fn at(alloc: Global, goal: Goal<'a>) -> Result<Sought<'a>, Fault>
        ensures goal { IfOk result (λ sought. sought.goal ≡ goal.entry) }
        ensures within { IfOk result (λ _. IsWithin goal.entry) }
        ensures refused { IfErr result (λ fault. IfRefused fault (IsRefused goal.entry)) }
    {
        let unwound = unwinding(alloc, goal.given)?;
        if is_goal_too_large(alloc, &goal.given.planned.plan, goal.number, unwound.pairs)? {
            return Err(too_large());
        }
        match Sought::over(alloc, goal, unwound) {
            Ok(sought) => Ok(sought),
            Err(Memory) => Err(Fault::Memory),
        }
    }

    /// A goal that is sought over an unwinding, of which nothing was tried.
    pub(crate) fn over(
        alloc: Global,
        goal: Goal<'a>,
        unwound: Unwound,
    ) -> Result<Sought<'a>, Memory>
        requires unwound { IsUnwindingOf goal.given.now unwound }
        requires small { IsSmall goal unwound.pairs }
        ensures { IfOk result (λ sought.
            sought ≡ record { goal = goal.entry; pairs = unwound.pairs }) }
    {
        let pool = Pool::new(alloc, goal.given)?;
        Ok(Sought {
            goal,
            unwound,
            pool,
            lessons: Lessons::new(alloc),
        })
    }

    /// Turns to another goal of the same.
    pub(crate) fn turn_to(&mut self, number: u32)
        requires { CanTurn self.old number }
        ensures { IsTurned self.old number self.new }
    {
        let given = self.goal.given;
        self.goal = Goal { given, number };
    }

    /// The goal.
    pub fn goal(&self) -> Goal<'a>
        ensures { result ≡ self.now.goal }
    {
        self.goal
    }

    /// How many goals there are.
    pub(crate) fn goal_count(&self) -> u32
        ensures { result ≡ length self.now.goal.given.now.planned.plan.goals }
    {
        self.goal.given.planned.plan.goals.len() as u32
    }

    /// The formula of the goal.
    ///
    /// # Errors
    ///
    /// Want of memory alone.
    pub fn formula(&mut self, alloc: Global) -> Result<GoalFormula, Memory>
        ensures exact { IfOk result (IsFormulaFor self.old.goal) }
        ensures same { self.new ≡ self.old }
    {
        formula_over(alloc, self.goal, &mut self.unwound)
    }

    /// The formula of the goal, and the same with lessons, if there are any over its wires.
    pub(crate) fn formula_given(
        &mut self,
        alloc: Global,
    ) -> Result<(GoalFormula, Option<WithLessons>), Memory>
        ensures exact { IfOk result (λ made. IsFormulaFor self.old.goal made.0) }
        ensures given { IfOk result (λ made.
            IfSome made.1 (λ given. SaysTheSame made.0.formula given.formula)) }
        ensures same { self.new ≡ self.old }
    {
        let formula = formula_over(alloc, self.goal, &mut self.unwound)?;
        let given = self.lessons.given(alloc, &self.unwound.circuit, &formula)?;
        Ok((formula, given))
    }

    /// Learns from the refutation of a goal's formula.
    pub(crate) fn learn(&mut self, alloc: Global, refutation: &Refutation) -> Result<(), Memory>
        requires { IsRight refutation.now }
        ensures { self.new ≡ self.old }
    {
        self.lessons.learn(alloc, &self.unwound.circuit, refutation)
    }

    /// The run of an input that stays within the bounds, recorded whole. No such run has more edges than the unwinding has
    /// entries.
    pub(crate) fn run_of(&self, alloc: Global, input: &Input) -> Result<PathRecord, Memory>
        requires { HasRun self.now.goal.given.now input.now }
        ensures { IfOk result (IsRecordOf self.now.goal.given.now input.now) }
    {
        let planned = &self.goal.given.planned;
        let entry = planned.entry;
        let limit = self.unwound.entries.len() as u64;
        trace_run(
            alloc,
            entry.graph,
            entry.number,
            input,
            &planned.predicates,
            limit,
        )
    }

    /// Tries the candidates that weren't tried up to so many, until the runs of all took so many edges, or so many of them in
    /// turn hit no goal that none before them did.
    pub(crate) fn fill(
        &mut self,
        alloc: Global,
        count: u64,
        edges: u64,
        patience: u64,
    ) -> Result<(), Memory>
        ensures { self.new ≡ self.old }
    {
        let given = self.goal.given;
        let limit = self.unwound.entries.len() as u64;
        'candidates: for _number in self.pool.tried..count {
            if self.pool.is_worn(edges, patience) {
                return Ok(());
            }
            self.pool.try_next(alloc, given, limit)?;
        }
        Ok(())
    }

    /// The first input of the pool that hits the goal.
    pub(crate) fn first_input(&self, alloc: Global) -> Result<Option<Input>, Memory>
        ensures { IfOk result (λ found. IfSome found (IsMadeFrom self.now.goal)) }
    {
        self.pool.first(alloc, self.goal.number)
    }

    /// Adds an input that was made for the goal to the pool.
    pub(crate) fn add_input(&mut self, alloc: Global, input: Input) -> Result<(), Memory>
        requires { (form : GoalForm) × IsMadeAs self.old.goal form input }
        ensures { self.new ≡ self.old }
    {
        let run = self.run_of(alloc, &input)?;
        self.pool.add(self.goal.given, &run, input)
    }

    /// Notes that no input at all hits the goal.
    pub(crate) fn refute(&mut self)
        requires { IsNoneFrom self.old.goal }
        ensures { self.new ≡ self.old }
    {
        self.pool.refute(self.goal.number);
    }

    /// Whether it was noted that no input at all hits the goal.
    pub(crate) fn is_refuted(&self) -> bool
        ensures { IsTrue result → IsNoneFrom self.now.goal }
    {
        self.pool.is_refuted(self.goal.number)
    }

    /// Whether an input of the pool hits the goal, or none hits it at all.
    pub(crate) fn is_closed(&self) -> bool {
        self.pool.is_closed(self.goal.number)
    }

    /// Whether each goal that is still open was searched with the whole budget.
    pub(crate) fn are_spent(&self) -> bool {
        self.pool.are_spent
    }

    /// Notes whether it was.
    pub(crate) fn set_spent(&mut self, are_spent: bool)
        ensures { self.new ≡ self.old }
    {
        self.pool.are_spent = are_spent;
    }

    /// Whether more than one goal is open.
    pub(crate) fn are_several_open(&self) -> bool {
        self.pool.are_several_open(self.goal_count())
    }
}
