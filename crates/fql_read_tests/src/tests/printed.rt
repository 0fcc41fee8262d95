// Queries as texts. A filter has its column before it, and a repetition its bounds and its column behind it.
use fq_core::Name;
use fql_read::{Clause, CoverTree, Filter, FilterForm, Query, Split};
use std::fmt::Write;
use std::test::Fail;

fn show_name(text: &mut String, name: &Name) -> Result<(), Fail> {
    for byte in name.bytes() {
        if *byte < 128 {
            text.push(*byte as char)?;
        }
    }
    Ok(())
}

fn show_named(text: &mut String, word: &str, name: &Name) -> Result<(), Fail> {
    text.push_str(word)?;
    text.push(' ')?;
    show_name(text, name)
}

// The word of an operator on filters.
fn word_of(form: &FilterForm) -> &'static str {
    match form {
        FilterForm::Not(_inner) => "NOT(",
        FilterForm::Complement(_inner) => "COMPLEMENT(",
        FilterForm::Union(_left, _right) => "UNION(",
        FilterForm::Intersect(_left, _right) => "INTERSECT(",
        FilterForm::SetMinus(_left, _right) => "SETMINUS(",
        FilterForm::Compose(_left, _right) => "COMPOSE(",
        _ => "",
    }
}

fn show_filter(text: &mut String, filter: &Filter) -> Result<(), Fail> {
    write!(text, "{}:", filter.column)?;
    match &filter.form {
        FilterForm::Id => text.push_str("ID")?,
        FilterForm::File(name) => show_named(text, "FILE", name)?,
        FilterForm::Line(line) => write!(text, "LINE {line}")?,
        FilterForm::Func(name) => show_named(text, "FUNC", name)?,
        FilterForm::Label(name) => show_named(text, "LABEL", name)?,
        FilterForm::Call(name) => show_named(text, "CALL", name)?,
        FilterForm::Entry(name) => show_named(text, "ENTRY", name)?,
        FilterForm::Exit(name) => show_named(text, "EXIT", name)?,
        FilterForm::BasicBlockEntry => text.push_str("BLOCK")?,
        FilterForm::ConditionEdge => text.push_str("GUARD")?,
        FilterForm::ConditionGraph => text.push_str("DECISION")?,
        FilterForm::DecisionEdge => text.push_str("OUTCOME")?,
        FilterForm::StatementTypes(kinds) => {
            text.push_str("TYPES")?;
            for kind in kinds {
                write!(text, " {}", *kind as u8)?;
            }
        }
        FilterForm::Writes(name) => show_named(text, "DEF", name)?,
        FilterForm::Reads(name) => show_named(text, "USE", name)?,
        FilterForm::Not(inner) | FilterForm::Complement(inner) => {
            text.push_str(word_of(&filter.form))?;
            show_filter(text, inner)?;
            text.push(')')?;
        }
        FilterForm::Union(left, right)
        | FilterForm::Intersect(left, right)
        | FilterForm::SetMinus(left, right)
        | FilterForm::Compose(left, right) => {
            text.push_str(word_of(&filter.form))?;
            show_filter(text, left)?;
            text.push(',')?;
            show_filter(text, right)?;
            text.push(')')?;
        }
    }
    Ok(())
}

// The mark of an operator between two expressions.
fn mark_of(tree: &CoverTree) -> &'static str {
    match tree {
        CoverTree::Dot(_left, _right) => " . ",
        CoverTree::Plus(_left, _right) => " + ",
        CoverTree::Arrow(_left, _right) => " -> ",
        _ => "",
    }
}

// A filter, and the places of the predicates of PRED behind it.
fn show_split(text: &mut String, split: &Split) -> Result<(), Fail> {
    show_filter(text, &split.filter)?;
    for place in &split.predicates {
        write!(text, "/p{place}")?;
    }
    Ok(())
}

fn show_tree(text: &mut String, tree: &CoverTree) -> Result<(), Fail> {
    match tree {
        CoverTree::Nodes(split) => {
            text.push_str("nodes ")?;
            show_split(text, split)?;
        }
        CoverTree::Edges(split) => show_split(text, split)?,
        CoverTree::Paths(filter, most) => {
            write!(text, "paths {most} ")?;
            show_filter(text, filter)?;
        }
        CoverTree::Predicate(place) => write!(text, "p{place}")?,
        CoverTree::Quoted { body, text: words } => {
            text.push('<')?;
            show_name(text, words)?;
            text.push_str("> [")?;
            show_tree(text, body)?;
            text.push(']')?;
        }
        CoverTree::Dot(left, right)
        | CoverTree::Plus(left, right)
        | CoverTree::Arrow(left, right) => {
            text.push('(')?;
            show_tree(text, left)?;
            text.push_str(mark_of(tree))?;
            show_tree(text, right)?;
            text.push(')')?;
        }
        CoverTree::Repeat {
            body,
            least,
            most,
            column,
        } => {
            show_tree(text, body)?;
            write!(text, " x{least}..")?;
            if let Some(most) = most {
                write!(text, "{most}")?;
            }
            write!(text, "@{column}")?;
        }
    }
    Ok(())
}

fn show_clause(text: &mut String, clause: &Clause) -> Result<(), Fail> {
    if clause.first {
        text.push('^')?;
    }
    show_tree(text, &clause.body)?;
    if clause.last {
        text.push('$')?;
    }
    Ok(())
}

/// The base graph before `|`, the cover clause, the passing clause behind `|`, and the predicates behind `;`.
pub fn show(text: &mut String, query: &Query) -> Result<(), Fail> {
    if let Some(filter) = &query.base {
        show_filter(text, filter)?;
        text.push_str(" | ")?;
    }
    show_clause(text, &query.cover)?;
    if let Some(clause) = &query.passing {
        text.push_str(" | ")?;
        show_clause(text, clause)?;
    }
    for predicate in &query.predicates {
        text.push_str("; ")?;
        show_name(text, predicate)?;
    }
    Ok(())
}
