// Formulas of the goals of small programs. How many values of one byte satisfy each was counted by hand.
ghost use Rattle.std.specs.Prelude.{◌≡◌, ◌<◌, ◌≤◌, [], IfOk, length, slice_get};
ghost use Rattle.std.specs.Option.{IsSomeAnd};
ghost use Rattle.cfa.specs.Contexts.{IsOnce};
ghost use Rattle.cfa.specs.Predicates.{IsPredicates};
ghost use Rattle.unwinder.specs.Unwinding.{IsUnwound};

use c_front::automaton_of_texts;
use c_meaning::Ends;
use c_values::Kind;
use cfa::{Graph, Predicates};
use containers::Same;
use fq_core::{Fault, Memory, Place, Refusal};
use fql_read::{Query, read_query};
use goal_formula::{GoalFormula, formula, input_of, is_goal_too_large, literal_formula};
use goals::{Plan, plan_of};
use predicates::resolve;
use std::alloc::Global;
use std::test::Fail;
use test_programs::{graph_of, texts_of};
use test_unwindings::{entry_of, unwound_of};
use unwinder::Unwound;
use unwinder_reach::reached::Bounds;

// A program, a query, the number of a goal, how runs are bounded, which ends count, and how many values of one byte, as the
// argument or as the first answer, satisfy the goal's formula.
type Row = (&'static str, &'static str, u32, Bounds, Ends, u32);

// e0, e1: the guards, true from 0 to 3 and false from 0 to 2; e2: return 1, from 3 to 1; e3: return 0, from 2 to 1.
const BRANCH: &str = "int f(char x) { if (x > 10) { return 1; } return 0; }";

// e0: the array, from 0 to 2; e1: the element, from 2 to 3; e2: return, from 3 to 1.
const ELEMENT: &str = "int f(char i) { int a[4]; a[i] = 1; return a[0]; }";

// e0: i = 0, from 0 to 2; e1 enters the loop, from 2 to 4; e2, e3: the guards, true from 4 to 5 and false from 4 to 3; e4:
// the sum, from 5 to 6; e5 goes back, from 6 to 4; e6: return, from 3 to 1.
const LOOP: &str = "int f(unsigned char n) { int i = 0; while (i < n) { i = i + 1; } return i; }";

const ANSWER: &str =
    "char in(void); int f(void) { int a = in(); if (a == 3) { return 1; } return 0; }";

const FIRST: &str = "int f(int x) {
  if (x > 10) {
    return 1;
  }
  return 0;
}";

const TURNS: Bounds = Bounds {
    turns: 3,
    frames: 1,
    answers: 0,
};

const READS: Bounds = Bounds {
    turns: 0,
    frames: 1,
    answers: 1,
};

static ROWS: [Row; 15] = [
    (BRANCH, "cover EDGES(ID)", 1, TURNS, Ends::Returned, 117),
    (BRANCH, "cover EDGES(ID)", 2, TURNS, Ends::Returned, 139),
    (BRANCH, "cover NODES(ID)", 2, TURNS, Ends::Returned, 256),
    (BRANCH, "cover {x == 11}", 1, TURNS, Ends::Returned, 1),
    (BRANCH, "cover {x > 5}$", 1, TURNS, Ends::Returned, 122),
    // The passing clause: no value is above 10 and negative, and 128 are negative.
    (
        BRANCH,
        "cover EDGES(ID) passing ^{x < 0}",
        1,
        TURNS,
        Ends::Returned,
        0,
    ),
    (
        BRANCH,
        "cover EDGES(ID) passing ^{x < 0}",
        2,
        TURNS,
        Ends::Returned,
        128,
    ),
    // A run that traps isn't counted, and where traps count it ends before the element.
    (ELEMENT, "cover NODES(ID)", 1, TURNS, Ends::Returned, 4),
    (ELEMENT, "cover NODES(ID)", 1, TURNS, Ends::Trapped, 256),
    (ELEMENT, "cover NODES(ID)$", 3, TURNS, Ends::Trapped, 252),
    (ELEMENT, "cover NODES(ID)$", 3, TURNS, Ends::Returned, 0),
    // At most three turns are within the bounds.
    (LOOP, "cover EDGES(ID)", 1, TURNS, Ends::Returned, 4),
    (LOOP, "cover EDGES(ID)", 5, TURNS, Ends::Returned, 3),
    (LOOP, "cover {i == 2}", 1, TURNS, Ends::Any, 2),
    (ANSWER, "cover {a == 3}", 1, READS, Ends::Returned, 1),
];

fn predicates_of(alloc: Global, graph: &Graph, query: &Query) -> Result<Predicates, Fault>
    ensures { IfOk result (λ p. IsPredicates graph.now p) }
{
    resolve(alloc, query, graph)
}

// The formulas of two goals, the second made after the first over one unwinding.
fn pair_in(
    alloc: Global,
    graph: &Graph,
    entry: u32,
    predicates: &Predicates,
    plan: &Plan,
    first: u32,
    second: u32,
    bounds: Bounds,
    ends: Ends,
) -> Result<(GoalFormula, GoalFormula), Fault>
    requires once { IsOnce graph.now }
    requires entry { IsSomeAnd (slice_get graph.now.functions entry) (λ f. f.arrays ≡ []) }
    requires predicates { IsPredicates graph.now predicates.now }
    requires frames { 1 ≤ bounds.frames }
    requires answers { bounds.answers ≤ 256 }
    requires some { 0 < first }
    requires there { first ≤ length plan.now.goals }
    requires second { 0 < second }
    requires second_there { second ≤ length plan.now.goals }
{
    let mut unwound = unwound_of(alloc, graph, entry, predicates, bounds, ends)?;
    let before = formula(alloc, graph, predicates, &mut unwound, plan, first)?;
    let after = formula(alloc, graph, predicates, &mut unwound, plan, second)?;
    Ok((before, after))
}

// The automaton of a source.
fn automaton_of(alloc: Global, source: &str) -> Result<Graph, Fail>
    ensures { IfOk result (λ graph. IsOnce graph) }
{
    let Ok(texts) = texts_of(alloc, &[("a.c", source)]) else {
        return Err(Fail::from("no memory"));
    };
    if !c_lex::are_small(&texts) || texts.len() != 1 {
        return Err(Fail::from("no unit"));
    }
    match automaton_of_texts(alloc, &texts) {
        Ok(graph) => Ok(graph),
        Err(_) => Err(Fail::from("no automaton")),
    }
}

fn pair_of(
    alloc: Global,
    source: &str,
    query: &str,
    first: u32,
    second: u32,
    bounds: Bounds,
    ends: Ends,
) -> Result<Result<(GoalFormula, GoalFormula), Fault>, Fail> {
    let graph = automaton_of(alloc, source)?;
    let Ok(query) = read_query(alloc, query.as_bytes()) else {
        return Err(Fail::from("no query"));
    };
    let Ok(predicates) = predicates_of(alloc, &graph, &query) else {
        return Err(Fail::from("no predicates"));
    };
    let Ok(plan) = plan_of(alloc, &query, &graph) else {
        return Err(Fail::from("no plan"));
    };
    let Some(entry) = entry_of(&graph) else {
        return Err(Fail::from("no function"));
    };
    if bounds.frames == 0 || bounds.answers > 256 {
        return Err(Fail::from("no bounds"));
    }
    let count = plan.goals.len();
    if first == 0 || first as usize > count || second == 0 || second as usize > count {
        return Err(Fail::from("no goal"));
    }
    Ok(pair_in(
        alloc,
        &graph,
        entry,
        &predicates,
        &plan,
        first,
        second,
        bounds,
        ends,
    ))
}

// The formula of the guard of an entry.
fn guard_at(
    alloc: Global,
    graph: &Graph,
    predicates: &Predicates,
    unwound: &Unwound,
    place: usize,
) -> Result<GoalFormula, Memory>
    requires predicates { IsPredicates graph.now predicates.now }
    requires unwound { IsSomeAnd (slice_get graph.now.functions unwound.now.entry) (λ f. IsUnwound graph.now predicates.now f unwound.now.entry unwound.now.bounds unwound.now.ends unwound.now) }
    requires there { place < length unwound.now.entries }
{
    graph.well_formed();
    let function = &graph.functions()[unwound.entry as usize];
    literal_formula(
        alloc,
        &unwound.circuit,
        unwound.entries[place].guard,
        &function.parameters,
        unwound.bounds.answers,
    )
}

// The formula of the guard of the entry behind an edge, of which there is at most one.
fn guard_in(
    alloc: Global,
    graph: &Graph,
    entry: u32,
    predicates: &Predicates,
    edge: u32,
) -> Result<Option<GoalFormula>, Fault>
    requires once { IsOnce graph.now }
    requires entry { IsSomeAnd (slice_get graph.now.functions entry) (λ f. f.arrays ≡ []) }
    requires predicates { IsPredicates graph.now predicates.now }
{
    let unwound = unwound_of(alloc, graph, entry, predicates, TURNS, Ends::Returned)?;
    for place in 0..unwound.entries.len() {
        if unwound.entries[place].edge == Some(edge) {
            let made = guard_at(alloc, graph, predicates, &unwound, place)?;
            return Ok(Some(made));
        }
    }
    Ok(None)
}

fn guard_of(alloc: Global, source: &str, edge: u32) -> Result<GoalFormula, Fail> {
    let graph = automaton_of(alloc, source)?;
    let Ok(query) = read_query(alloc, b"cover NODES(ID)") else {
        return Err(Fail::from("no query"));
    };
    let Ok(predicates) = predicates_of(alloc, &graph, &query) else {
        return Err(Fail::from("no predicates"));
    };
    let Some(entry) = entry_of(&graph) else {
        return Err(Fail::from("no function"));
    };
    match guard_in(alloc, &graph, entry, &predicates, edge) {
        Ok(Some(made)) => Ok(made),
        _ => Err(Fail::from("no entry")),
    }
}

// Sets the variables of a row to the bits of a value.
fn set_bits(values: &mut [Option<bool>], row: &[Option<u32>], value: u64) {
    for place in 0..row.len() {
        if let Some(variable) = row[place]
            && let Some(slot) = values.get_mut(variable as usize)
        {
            *slot = Some(value >> (place % 64) & 1 == 1);
        }
    }
}

// A literal's truth, where its variable has a value.
fn truth(values: &[Option<bool>], literal: i32) -> Option<bool> {
    let value = values.get(literal.unsigned_abs() as usize).copied()??;
    Some(value == (literal > 0))
}

// Makes a literal true.
fn set_literal(values: &mut [Option<bool>], literal: i32) {
    if let Some(slot) = values.get_mut(literal.unsigned_abs() as usize) {
        *slot = Some(literal > 0);
    }
}

// Whether a clause is true, where its one literal that has no value is made true.
fn holds(values: &mut [Option<bool>], clause: &[i32]) -> bool {
    let mut open = None;
    for literal in clause {
        match truth(values, *literal) {
            Some(true) => return true,
            Some(false) => {}
            None => open = Some(*literal),
        }
    }
    match open {
        None => false,
        Some(literal) => {
            set_literal(values, literal);
            true
        }
    }
}

// A model of the formula in which the input bits are those of a value, where there is one. The clauses of a gate stand behind
// those of its parts, so that each gate has one literal without a value at most when its clauses are met.
fn model_of(alloc: Global, goal: &GoalFormula, value: u64) -> Result<Option<Vec<bool>>, Fail> {
    let mut values = vec![in alloc; None; goal.formula.variables as usize + 1]?;
    for row in goal.words.as_slice() {
        set_bits(&mut values, row, value);
    }
    for row in goal.answers.as_slice() {
        set_bits(&mut values, row, value);
    }
    for clause in goal.formula.clauses.as_slice() {
        if !holds(&mut values, clause.literals()) {
            return Ok(None);
        }
    }
    let mut model = Vec::new(alloc);
    for value in values.iter().skip(1) {
        model.push(value.unwrap_or(false))?;
    }
    Ok(Some(model))
}

// How many values of one byte have a model.
fn count_models(alloc: Global, goal: &GoalFormula) -> Result<u32, Fail> {
    let mut count = 0u32;
    for value in 0..256 {
        if model_of(alloc, goal, value)?.is_some() {
            count = count.saturating_add(1);
        }
    }
    Ok(count)
}

// Each formula is made after that of the first goal.
#[test]
fn models_by_hand(rt: HostRuntime) -> Result<(), Fail> {
    for (source, query, goal, bounds, ends, count) in &ROWS {
        let Ok((_, made)) = pair_of(rt.alloc(), source, query, 1, *goal, *bounds, *ends)? else {
            return Err(Fail::from("refused"));
        };
        assert_eq!(rt;
            count_models(rt.alloc(), &made)?,
            *count,
            "{query} {goal} of {source}"
        );
    }
    Ok(())
}

// 117 values of a char are above 10, and 139 aren't. Each byte comes to a loop, and each but 0 into its first turn.
#[test]
fn guards_by_hand(rt: HostRuntime) -> Result<(), Fail> {
    let rows = [
        (BRANCH, 0, 117),
        (BRANCH, 1, 139),
        (BRANCH, 2, 117),
        (LOOP, 0, 256),
        (LOOP, 2, 255),
    ];
    for (source, edge, count) in rows {
        let made = guard_of(rt.alloc(), source, edge)?;
        assert_eq!(rt;
            count_models(rt.alloc(), &made)?,
            count,
            "{edge} of {source}"
        );
    }
    Ok(())
}

// Line 3 is covered where the argument is above 10.
#[test]
fn values_of_an_int(rt: HostRuntime) -> Result<(), Fail> {
    let query = "cover @LINE(3)";
    let Ok((_, made)) = pair_of(rt.alloc(), FIRST, query, 1, 1, TURNS, Ends::Returned)? else {
        return Err(Fail::from("refused"));
    };
    for (value, covers) in [
        (5, false),
        (10, false),
        (11, true),
        (2_147_483_647, true),
        (2_147_483_648, false),
    ] {
        assert_eq!(rt;
            model_of(rt.alloc(), &made, value)?.is_some(),
            covers,
            "{value}"
        );
    }
    Ok(())
}

// Whether the first goal of a query over the first example is too large over so many pairs.
fn is_large(alloc: Global, query: &str, pairs: u32) -> Result<bool, Fail> {
    let Ok(graph) = graph_of(alloc, b"a.c", FIRST) else {
        return Err(Fail::from("no automaton"));
    };
    let Ok(query) = read_query(alloc, query.as_bytes()) else {
        return Err(Fail::from("no query"));
    };
    let Ok(plan) = plan_of(alloc, &query, &graph) else {
        return Err(Fail::from("no plan"));
    };
    if plan.goals.is_empty() {
        return Err(Fail::from("no goal"));
    }
    Ok(is_goal_too_large(alloc, &plan, 1, pairs)?)
}

// 1,602 squared is 2,566,404: three pairs come to 7,699,212, and the four of the example to 10,265,616.
#[test]
fn too_large(rt: HostRuntime) -> Result<(), Fail> {
    let query = "cover \"(ID==40)==40\"";
    assert!(rt; !is_large(rt.alloc(), query, 3)? && is_large(rt.alloc(), query, 4)?);
    match pair_of(rt.alloc(), FIRST, query, 1, 1, TURNS, Ends::Returned)? {
        Err(
            Fault::Refused(
                Refusal {
                    code,
                    place: Place::Limit { number },
                },
            ),
        ) => {
            assert_eq!(rt; (code, number), (82, 8_388_608));
            Ok(())
        }
        _ => Err(Fail::from("no limit")),
    }
}

fn same(a: &GoalFormula, b: &GoalFormula) -> bool {
    a.formula.same(&b.formula) && a.words.same(&b.words) && a.answers.same(&b.answers)
}

// The formula of a goal is the same whatever goals came before.
#[test]
fn in_two_orders(rt: HostRuntime) -> Result<(), Fail> {
    let rows = [
        (BRANCH, "cover EDGES(ID) passing ^{x < 0}", 1, 2),
        (ELEMENT, "cover NODES(ID)$", 1, 3),
        (LOOP, "cover EDGES(ID).\"ID*\".{i == 2}", 2, 6),
    ];
    for (source, query, a, b) in rows {
        let Ok((first, second)) = pair_of(rt.alloc(), source, query, a, b, TURNS, Ends::Any)? else {
            return Err(Fail::from("refused"));
        };
        let Ok((third, fourth)) = pair_of(rt.alloc(), source, query, b, a, TURNS, Ends::Any)? else {
            return Err(Fail::from("refused"));
        };
        assert!(rt; same(&first, &fourth) && same(&second, &third), "{query}");
    }
    Ok(())
}

// The word of the input of a model, where the formula has one argument of eight bits and no answer.
fn word_of(alloc: Global, goal: &GoalFormula, model: &[bool]) -> Result<Option<u64>, Fail> {
    if goal.words.len() != 1 || goal.words[0].len() != 8 || goal.answers.len() != 0 {
        return Ok(None);
    }
    let input = input_of(alloc, goal, model, &[Kind::CHAR])?;
    Ok(input.words.as_slice().first().copied())
}

// The bits of -117 as a byte, and all bits of a formula that has none.
#[test]
fn inputs_of_models(rt: HostRuntime) -> Result<(), Fail> {
    let rows = [
        ("cover EDGES(ID)", 2, 139, 18_446_744_073_709_551_499),
        ("cover EDGES(ID)", 1, 117, 117),
        ("cover NODES(ID)", 2, 139, 0),
    ];
    for (query, goal, value, word) in rows {
        let Ok((_, made)) = pair_of(rt.alloc(), BRANCH, query, 1, goal, TURNS, Ends::Returned)?
        else {
            return Err(Fail::from("refused"));
        };
        let Some(model) = model_of(rt.alloc(), &made, value)? else {
            return Err(Fail::from("no model"));
        };
        assert_eq!(rt;
            word_of(rt.alloc(), &made, &model)?,
            Some(word),
            "{query} {goal}"
        );
    }
    Ok(())
}
