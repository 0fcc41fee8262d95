// A goal decided: its formula is searched.
ghost use Rattle.std.specs.Prelude.{◌≡◌, ◌≤◌, ◌^◌, ℕ, IfOk, IfSome};
ghost use Rattle.search.specs.Laws.{IsFormula};
ghost use Rattle.search.specs.Nexts.{IsFound, IsModel};
ghost use Rattle.suite.specs.Seeking.{IsDecidedAt, IsFormulaFor, IsMadeFrom, IsOpenAt};

use crate::decided::Decided;
use crate::pool::{LATER, LEAST, first_count, first_edges, first_patience, values_of};
use crate::sought::Sought;
use c_meaning::Input;
use cnf::Formula;
use fq_core::Memory;
use goal_formula::{GoalFormula, input_of};
use search::{Found, search, search_ends, search_highest_part, search_lowest_part, search_whole};
use search_checked::{Outcome, confirmed};
use std::alloc::Global;

/// The input of a model of a goal's formula, with the answers alone that its run reads, each as a value of the kind as which
/// it is read.
pub(crate) fn made_input(
    alloc: Global,
    sought: &Sought,
    formula: &GoalFormula,
    model: &[bool],
) -> Result<Input, Memory>
    requires exact { IsFormulaFor sought.now.goal formula.now }
    requires model { IsModel formula.now.formula model.now }
    ensures { IfOk result (IsMadeFrom sought.now.goal) }
{
    let entry = sought.goal().given.planned.entry;
    entry.graph.well_formed();
    let input = input_of(alloc, formula, model, &entry.function.parameters)?;
    let run = sought.run_of(alloc, &input)?;
    let answers = values_of(alloc, &run.taken)?;
    Ok(Input {
        words: input.words,
        answers,
    })
}

/// What is said of a goal by what the search of its formula found.
fn answered(
    alloc: Global,
    sought: &Sought,
    formula: GoalFormula,
    found: Found,
) -> Result<Decided, Memory>
    requires exact { IsFormulaFor sought.now.goal formula }
    requires found { (budget : ℕ) × IsFound formula.formula budget found }
    ensures { (budget : ℕ) → IsFound formula.formula budget found
        → IfOk result (IsDecidedAt sought.now.goal budget) }
{
    match confirmed(alloc, &formula.formula, found)? {
        Outcome::Model(model) => {
            let input = made_input(alloc, sought, &formula, &model)?;
            Ok(Decided::Covered(input))
        }
        Outcome::Refuted(derivation) => Ok(Decided::Refuted {
            formula,
            derivation,
        }),
        Outcome::Open(history) => Ok(Decided::Undecided { formula, history }),
    }
}

/// What the whole search of a formula finds, or the first search alone where the whole one was spent before.
fn found_whole(
    alloc: Global,
    formula: &Formula,
    budget: u64,
    is_spent: bool,
) -> Result<Found, Memory>
    requires formula { IsFormula formula.now }
    requires small { formula.now.variables ≤ 2 ^ 30 }
    ensures { IfOk result (IsFound formula.now budget) }
{
    if is_spent {
        search(alloc, formula, budget)
    } else {
        search_whole(alloc, formula, budget)
    }
}

/// What the whole search of a goal's formula finds.
fn searched(alloc: Global, sought: &mut Sought, budget: u64) -> Result<Decided, Memory>
    ensures decided { IfOk result (IsDecidedAt sought.old.goal budget) }
    ensures same { sought.new ≡ sought.old }
{
    let formula = sought.formula(alloc)?;
    let found = found_whole(alloc, &formula.formula, budget, sought.are_spent())?;
    answered(alloc, sought, formula, found)
}

/// What the candidates of a pool find that weren't tried so far, so many times as many as there are at first: an input, or
/// nothing more.
fn later_found(
    alloc: Global,
    sought: &mut Sought,
    budget: u64,
    times: u64,
) -> Result<Option<Input>, Memory>
    ensures found { IfOk result (λ found. IfSome found (IsMadeFrom sought.old.goal)) }
    ensures same { sought.new ≡ sought.old }
{
    let count = first_count(budget).saturating_mul(times);
    let edges = first_edges(budget).saturating_mul(times);
    sought.fill(alloc, count, edges, u64::MAX)?;
    sought.first_input(alloc)
}

/// What is found of a goal before its whole search, beside a pool: by a short search of its formula, by the candidates that
/// weren't tried so far, and by a short search from the highest variables back, in this order.
pub(crate) fn found_by_parts(
    alloc: Global,
    sought: &mut Sought,
    formula: GoalFormula,
    budget: u64,
) -> Result<Option<Decided>, Memory>
    requires { IsFormulaFor sought.old.goal formula }
    ensures decided { IfOk result (λ found. IfSome found (IsDecidedAt sought.old.goal budget)) }
    ensures same { sought.new ≡ sought.old }
{
    if let Some(found) = search_lowest_part(alloc, &formula.formula, budget)? {
        let decided = answered(alloc, sought, formula, found)?;
        return Ok(Some(decided));
    }
    if let Some(input) = later_found(alloc, sought, budget, 1)? {
        return Ok(Some(Decided::Covered(input)));
    }
    if let Some(found) = search_highest_part(alloc, &formula.formula, budget)? {
        let decided = answered(alloc, sought, formula, found)?;
        return Ok(Some(decided));
    }
    Ok(None)
}

/// What is found so of a goal. With a budget below 1,000 nothing is.
fn found_early(alloc: Global, sought: &mut Sought, budget: u64) -> Result<Option<Decided>, Memory>
    ensures decided { IfOk result (λ found. IfSome found (IsDecidedAt sought.old.goal budget)) }
    ensures same { sought.new ≡ sought.old }
{
    if budget < LEAST {
        return Ok(None);
    }
    let formula = sought.formula(alloc)?;
    found_by_parts(alloc, sought, formula, budget)
}

/// What is found of a goal of which nothing was found early, beside a pool: by the whole search, whose history isn't made, and
/// then by the later candidates.
pub(crate) fn found_late(
    alloc: Global,
    sought: &mut Sought,
    budget: u64,
) -> Result<Option<Decided>, Memory>
    ensures decided { IfOk result (λ found. IfSome found (IsDecidedAt sought.old.goal budget)) }
    ensures same { sought.new ≡ sought.old }
{
    let formula = sought.formula(alloc)?;
    if let Some(found) = search_ends(alloc, &formula.formula, budget)? {
        let decided = answered(alloc, sought, formula, found)?;
        return Ok(Some(decided));
    }
    match later_found(alloc, sought, budget, LATER)? {
        Some(input) => Ok(Some(Decided::Covered(input))),
        None => Ok(None),
    }
}

/// Decides a goal of which nothing was found before, beside a pool: the first input of the pool that hits the goal covers it,
/// else it is searched with the whole budget, and where that leaves it open the later candidates are tried. Where the whole
/// search of each open goal was spent before, the first of its searches is made again, for its history.
pub(crate) fn decide_beside(
    alloc: Global,
    sought: &mut Sought,
    budget: u64,
) -> Result<Decided, Memory>
    ensures decided { IfOk result (IsDecidedAt sought.old.goal budget) }
    ensures same { sought.new ≡ sought.old }
{
    if let Some(input) = sought.first_input(alloc)? {
        return Ok(Decided::Covered(input));
    }
    let decided = searched(alloc, sought, budget)?;
    if !matches!(&decided, Decided::Undecided { .. }) {
        return Ok(decided);
    }
    match later_found(alloc, sought, budget, LATER)? {
        Some(input) => Ok(Decided::Covered(input)),
        None => Ok(decided),
    }
}

/// Tries the candidates that are tried before goals are searched.
pub(crate) fn fill_first(alloc: Global, sought: &mut Sought, budget: u64) -> Result<(), Memory>
    ensures { sought.new ≡ sought.old }
{
    let count = first_count(budget);
    let edges = first_edges(budget);
    let patience = first_patience(budget);
    sought.fill(alloc, count, edges, patience)
}

/// Decides a goal that is sought, with a budget of so many moves of the search.
///
/// An input that is made has a run within the bounds that hits the goal, exactly the answers that this run reads, and values
/// of their kinds as words. A goal is refuted by a derivation that checks over a formula that is exact for it, with at most one
/// line more than the budget: then no input at all has such a run. A certificate can write the two. It stays undecided only
/// where a search of such a formula made as many moves as the budget allows and isn't finished, and only with a budget below 3
/// to the most variables of its formula.
///
/// A budget of 1,000 or more is spent in steps, the first of which that finds something ends it: candidates are run, one for
/// ten thousand moves of the budget and more while they hit goals that none before them did; a fiftieth of the budget is
/// searched; candidates are run up to one for a thousand moves; a twentieth is searched with the highest variables decided
/// first; the whole is searched, with the lowest variables first, then with the highest, and then twenty parts of it with mixed
/// signs; and ten times as many candidates are run. An input may come from there.
///
/// # Errors
///
/// Want of memory alone.
pub fn decide(alloc: Global, sought: &mut Sought, budget: u64) -> Result<Decided, Memory>
    ensures decided { IfOk result (IsDecidedAt sought.old.goal budget) }
    ensures enough { IfOk result (IsOpenAt sought.old.goal budget) }
    ensures same { sought.new ≡ sought.old }
{
    fill_first(alloc, sought, budget)?;
    if let Some(input) = sought.first_input(alloc)? {
        return Ok(Decided::Covered(input));
    }
    if let Some(decided) = found_early(alloc, sought, budget)? {
        return Ok(decided);
    }
    decide_beside(alloc, sought, budget)
}
