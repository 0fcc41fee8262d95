// Plans of queries over sources, as text.
use cfa::Graph;
use fq_core::{Fault, Name, Place, Refusal};
use fql_read::read_query;
use goals::{Goal, GoalLetter, Plan, plan_of};
use patterns::{Letter, Pattern};
use std::alloc::{AllocError, Global};
use std::fmt::Write;
use std::test::Fail;

pub(crate) fn planned(alloc: Global, graph: &Graph, query: &str) -> Result<Plan, Fault> {
    let query = read_query(alloc, query.as_bytes())?;
    plan_of(alloc, &query, graph)
}

fn show_letter(text: &mut String, letter: GoalLetter) -> Result<(), Fail> {
    match letter {
        GoalLetter::Node(node) => write!(text, " n{node}")?,
        GoalLetter::Edge(edge) => write!(text, " e{edge}")?,
        GoalLetter::Predicate(number) => write!(text, " p{number}")?,
        GoalLetter::Absent(number) => write!(text, " !p{number}")?,
        GoalLetter::Quoted(number) => write!(text, " q{number}")?,
    }
    Ok(())
}

// The letters of each goal, and a comma behind each goal.
pub(crate) fn show_words(text: &mut String, goals: &[Goal]) -> Result<(), Fail> {
    for goal in goals {
        for letter in goal.word() {
            show_letter(text, *letter)?;
        }
        text.push_str(",")?;
    }
    Ok(())
}

fn show_set(text: &mut String, kind: &str, numbers: &[u32]) -> Result<(), Fail> {
    text.push_str(kind)?;
    for number in numbers {
        write!(text, " {number}")?;
    }
    text.push_str(";")?;
    Ok(())
}

// A pattern with parentheses round each form: n and e with their members, p with its number, `*` with its bounds.
pub(crate) fn show_pattern(text: &mut String, pattern: &Pattern<Letter>) -> Result<(), Fail> {
    match pattern {
        Pattern::Nothing => text.push_str("-")?,
        Pattern::Letter(Letter::Nodes(nodes)) => show_set(text, "n", nodes.as_slice())?,
        Pattern::Letter(Letter::Edges(edges)) => show_set(text, "e", edges.as_slice())?,
        Pattern::Letter(Letter::Predicate(number)) => write!(text, "p{number};")?,
        Pattern::Letter(Letter::Absent(number)) => write!(text, "!p{number};")?,
        Pattern::Dot(a, b) => {
            text.push_str("(")?;
            show_pattern(text, a)?;
            text.push_str(".")?;
            show_pattern(text, b)?;
            text.push_str(")")?;
        }
        Pattern::Either(a, b) => {
            text.push_str("(")?;
            show_pattern(text, a)?;
            text.push_str("+")?;
            show_pattern(text, b)?;
            text.push_str(")")?;
        }
        Pattern::Repeat { body, least, most } => {
            show_pattern(text, body)?;
            match most {
                None => write!(text, "*{least}-")?,
                Some(most) => write!(text, "*{least}-{most}")?,
            }
        }
    }
    Ok(())
}

// The code of a refusal and its place.
pub(crate) fn show_refusal(text: &mut String, refusal: &Refusal) -> Result<(), Fail> {
    write!(text, "{} ", refusal.code)?;
    match &refusal.place {
        Place::Query { column } => write!(text, "query:{column}")?,
        Place::QueryWhole => text.push_str("query")?,
        Place::Limit { number } => write!(text, "limit {number}")?,
        _ => text.push_str("elsewhere")?,
    }
    Ok(())
}

pub(crate) fn show_names(text: &mut String, names: &[Name]) -> Result<(), AllocError> {
    for name in names {
        for byte in name.bytes() {
            text.push(*byte as char)?;
        }
        text.push_str(";")?;
    }
    Ok(())
}
