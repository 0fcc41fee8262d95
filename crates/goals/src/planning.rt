// Plans of queries.
ghost use Rattle.std.specs.Prelude.{◌≡◌, ◌||◌, ℕ, [], false, true, map, nat_lt, None, IfOk, IfSome, IsTrue, option_and_then, option_map};
ghost use Rattle.std.specs.Option.{option_map_or};
ghost use Rattle.goals.specs.applied_clauses.Applied.{applied, base_of};
ghost use Rattle.goals.specs.applied_clauses.Limits.{passed_limit};
ghost use Rattle.goals.specs.applied_clauses.Missing.{missing_in};
ghost use Rattle.goals.specs.applied_clauses.Outcome.{too_many};
ghost use Rattle.goals.specs.applied_clauses.Trees.{tree_of};
ghost use Rattle.goals.specs.applied_clauses.Within.{tree_within};
ghost use Rattle.cfa.specs.declared.parts.GraphParts.{GraphParts};
ghost use Rattle.filters.specs.Names.{missing_name};
ghost use Rattle.filters.specs.Parts.{IsWithin, part_of, whole};
ghost use Rattle.fql_read.specs.Usable.{IsUsable, is_within};
ghost use Rattle.goals.specs.Counts.{tree_letters};
ghost use Rattle.goals.specs.CountedCauses.{counted_causes, is_long_tree};
ghost use Rattle.goals.specs.Forms.{pattern_of, quote_patterns, word_pattern};
ghost use Rattle.goals.specs.Over.{IsPlanOver};
ghost use Rattle.goals.specs.Plans.{IsPassingOutcome, IsPlanOutcome, IsTreeOutcome, cover_tree, first_cause, goals_of, goals_with, no_such_name, passing_of, passing_tree, plan_with};
ghost use Rattle.goals.specs.Quotes.{quotes_in};
ghost use Rattle.goals.specs.Words.{quotes_of, texts};
ghost use Rattle.fq_core.specs.declared.refusal.Fault.TheVariants as fault;
ghost use Rattle.fq_core.specs.declared.refusal.Place.TheVariants as place;

use crate::applied_clauses::{AppliedTree, apply_clause, base_graph, missing_in};
use crate::counts::{longest, tree_letters, word_count};
use crate::distinct::distinct;
use crate::forms::pattern_of;
use crate::goal::Goal;
use crate::goal_letter::GoalLetter;
use crate::plan::{PassingPattern, Plan};
use crate::quotes::{QuotedLetter, gathered};
use crate::words::words;
use cfa::Graph;
use containers::{TryClone, Vector};
use filters::{TargetGraph, missing};
use fq_core::{Fault, Memory, Name, Place, Refusal};
use fql_read::{Clause, Query};
use patterns::{Letter, Pattern};
use std::alloc::Global;
use std::rc::Rc;

/// The greatest number of words of a cover clause before duplicates go.
const MOST_WORDS: u32 = 10_000;

/// The greatest number of letters of a pattern, repetitions unrolled.
const MOST_LETTERS: u32 = 5_000;

fn limit_passed(code: u16, limit: u32) -> Refusal
    ensures { result ≡ record { code = code; place = place.Limit limit } }
{
    Refusal {
        code,
        place: Place::Limit {
            number: limit as u64,
        },
    }
}

fn is_passing_long(passing: &Option<AppliedTree>) -> bool
    ensures { result ≡ option_map_or is_long_tree (option_map tree_of passing.now) false }
{
    match passing {
        None => false,
        Some(tree) => tree_letters(tree) > MOST_LETTERS as u64,
    }
}

/// Why a query whose filters have been applied, within the limits of paths, has no plan.
fn refusal_of(
    cover: &AppliedTree,
    passing: &Option<AppliedTree>,
    quotes: &[QuotedLetter],
) -> Option<Refusal>
    ensures { result ≡ first_cause (counted_causes (quotes_in quotes.now) (tree_of cover.now) (option_map tree_of passing.now)) }
{
    let count = word_count(cover);
    if count > MOST_WORDS as u64 {
        return Some(limit_passed(71, MOST_WORDS));
    }
    if longest(cover, quotes) > MOST_LETTERS as u64 || is_passing_long(passing) {
        return Some(limit_passed(73, MOST_LETTERS));
    }
    if count == 0 {
        return Some(Refusal {
            code: 72,
            place: Place::QueryWhole,
        });
    }
    None
}

fn quote_patterns(alloc: Global, quotes: &[QuotedLetter]) -> Result<Vec<Pattern<Letter>>, Memory>
    ensures { IfOk result (λ patterns. patterns.items ≡ quote_patterns (quotes_in quotes.now)) }
{
    let mut patterns = Vec::new(alloc);
    for quote in quotes {
        patterns.push(pattern_of(alloc, quote.body)?)?;
    }
    Ok(patterns)
}

fn texts(alloc: Global, quotes: &[QuotedLetter]) -> Result<Vector<Name>, Memory>
    ensures { IfOk result (λ names. names ≡ texts (quotes_in quotes.now)) }
{
    let mut names = Vector::new(alloc);
    for quote in quotes {
        names.push(quote.text.try_clone(alloc)?)?;
    }
    Ok(names)
}

fn goals_with(
    alloc: Global,
    words: Vector<Vector<GoalLetter>>,
    patterns: &Rc<Vec<Pattern<Letter>>>,
) -> Result<Vector<Goal>, Memory>
    ensures { IfOk result (λ goals. goals ≡ goals_with patterns.now.value.items words) }
{
    let mut goals = Vector::new(alloc);
    for word in words.into_vec() {
        goals.push(Goal::new(word, patterns)?)?;
    }
    Ok(goals)
}

fn passing_of(
    alloc: Global,
    clause: &Option<Clause>,
    tree: &Option<AppliedTree>,
) -> Result<Option<PassingPattern>, Memory>
    ensures { IfOk result (λ passing. passing ≡ passing_of clause.now (option_map tree_of tree.now)) }
{
    match (clause, tree) {
        (Some(clause), Some(tree)) => Ok(Some(PassingPattern {
            pattern: pattern_of(alloc, tree)?,
            first: clause.first,
            last: clause.last,
        })),
        _ => Ok(None),
    }
}

/// The goals of a cover clause, in order.
fn goals_of(
    alloc: Global,
    cover: &AppliedTree,
    quotes: &[QuotedLetter],
) -> Result<Vector<Goal>, Memory>
    requires { quotes_in quotes.now ≡ quotes_of (tree_of cover.now) }
    ensures { IfOk result (λ goals. goals ≡ goals_of (tree_of cover.now)) }
{
    let different = distinct(alloc, words(alloc, cover, quotes)?)?;
    let patterns = Rc::new(alloc, quote_patterns(alloc, quotes)?)?;
    goals_with(alloc, different, &patterns)
}

fn plan_with(
    alloc: Global,
    query: &Query,
    cover: &AppliedTree,
    passing: &Option<AppliedTree>,
    quotes: &[QuotedLetter],
) -> Result<Plan, Memory>
    requires { quotes_in quotes.now ≡ quotes_of (tree_of cover.now) }
    ensures { IfOk result (λ plan. plan ≡ plan_with query.now (tree_of cover.now) (option_map tree_of passing.now)) }
{
    let goals = goals_of(alloc, cover, quotes)?;
    let passing = passing_of(alloc, &query.passing, passing)?;
    let quotes = texts(alloc, quotes)?;
    let predicates = query.predicates.try_clone(alloc)?;
    Ok(Plan {
        goals,
        first: query.cover.first,
        last: query.cover.last,
        passing,
        quotes,
        predicates,
    })
}

/// The plan of a query whose filters have been applied, within the limits of paths.
fn plan_of_trees(
    alloc: Global,
    query: &Query,
    cover: &AppliedTree,
    passing: &Option<AppliedTree>,
) -> Result<Plan, Fault>
    requires cover { passed_limit (tree_of cover.now) ≡ None }
    requires passing { option_and_then passed_limit (option_map tree_of passing.now) ≡ None }
    ensures { IsTreeOutcome query.now (tree_of cover.now) (option_map tree_of passing.now) result }
{
    let quotes = gathered(cover, Vec::new(alloc))?;
    match refusal_of(cover, passing, &quotes) {
        Some(refusal) => Err(Fault::Refused(refusal)),
        None => Ok(plan_with(alloc, query, cover, passing, &quotes)?),
    }
}

fn apply_passing(
    alloc: Global,
    graph: &Graph,
    all: &TargetGraph,
    clause: &Option<Clause>,
) -> Result<Option<AppliedTree>, Fault>
    requires within { IsWithin graph.now (part_of all.now) }
    requires named { option_and_then (λ c. missing_in graph.now c.body) clause.now ≡ None }
    ensures outcome { IsPassingOutcome (option_map (λ c. applied graph.now (part_of all.now) c.body) clause.now) result }
    ensures within { (count : ℕ) → IfSome clause.now (λ c. IsTrue (is_within count c.body)) → IfOk result (λ passing. option_map_or (λ t. tree_within graph.now count (tree_of t)) passing true ≡ true) }
{
    match clause {
        None => Ok(None),
        Some(clause) => Ok(Some(apply_clause(alloc, graph, all, &clause.body)?)),
    }
}

/// The plan of a query all of whose names are in the graph.
fn plan_named(alloc: Global, query: &Query, graph: &Graph, all: &TargetGraph) -> Result<Plan, Fault>
    requires within { IsWithin graph.now (part_of all.now) }
    requires all { part_of all.now ≡ whole graph.now }
    requires base { option_and_then (missing_name graph.now) query.now.base ≡ None }
    requires cover { missing_in graph.now query.now.cover.body ≡ None }
    requires passing { option_and_then (λ c. missing_in graph.now c.body) query.now.passing ≡ None }
    ensures outcome { IsTreeOutcome query.now (cover_tree graph.now query.now) (passing_tree graph.now query.now) result }
    ensures over { IsUsable query.now → IfOk result (λ plan. IsPlanOver graph.now plan) }
{
    let base = base_graph(alloc, graph, all, &query.base)?;
    let cover = apply_clause(alloc, graph, &base, &query.cover.body)?;
    let passing = apply_passing(alloc, graph, all, &query.passing)?;
    plan_of_trees(alloc, query, &cover, &passing)
}

fn missing_in_base(alloc: Global, graph: &Graph, query: &Query) -> Result<Option<u32>, Memory>
    ensures { IfOk result (λ column. column ≡ option_and_then (missing_name graph.now) query.now.base) }
{
    match &query.base {
        None => Ok(None),
        Some(filter) => missing(alloc, graph, filter),
    }
}

fn missing_in_passing(alloc: Global, graph: &Graph, query: &Query) -> Result<Option<u32>, Memory>
    ensures { IfOk result (λ column. column ≡ option_and_then (λ c. missing_in graph.now c.body) query.now.passing) }
{
    match &query.passing {
        None => Ok(None),
        Some(clause) => missing_in(alloc, graph, &clause.body),
    }
}

fn no_such_name(column: u32) -> Fault
    ensures { result ≡ fault.Refused (no_such_name column) }
{
    Fault::Refused(Refusal {
        code: 70,
        place: Place::Query { column },
    })
}

/// The plan of a query over a control flow automaton: its goals in order, the pattern of its passing clause, and the texts
/// of its quoted letters and of its predicates. What the plan of a query that was read names is in the automaton
/// (`IsPlanOver`, specs/Over.antt).
///
/// # Errors
///
/// The first of these causes, in this order. Code 70 where a filter needs a name that isn't in the graph, with the least
/// column of such a filter, first of the filter after `in`, then of the cover clause, then of the passing clause. Code 71
/// with the limit that the first `PATHS` passes which passes one, within quotation marks too: 10,000 paths, and then
/// 1,000,000 edges in them; and after all `PATHS`, with the limit 10,000, where the cover clause has more words, duplicates
/// counted. Code 73 where the pattern of a goal or of the passing clause has more than 5,000 letters, repetitions unrolled.
/// Code 72 where there is no goal.
pub fn plan_of(alloc: Global, query: &Query, graph: &Graph) -> Result<Plan, Fault>
    ensures outcome { IsPlanOutcome graph.now query.now result }
    ensures over { IsUsable query.now → IfOk result (λ plan. IsPlanOver graph.now plan) }
{
    if let Some(column) = missing_in_base(alloc, graph, query)? {
        return Err(no_such_name(column));
    }
    if let Some(column) = missing_in(alloc, graph, &query.cover.body)? {
        return Err(no_such_name(column));
    }
    if let Some(column) = missing_in_passing(alloc, graph, query)? {
        return Err(no_such_name(column));
    }
    let all = TargetGraph::whole(alloc, graph)?;
    plan_named(alloc, query, graph, &all)
}
