// The trees of clauses.
use crate::filter::Filter;
use containers::{Boxed, Vector};
use fq_core::Name;

/// What `NODES` or `EDGES` is of: a filter, or `PRED` of one, which tells each state apart by whether predicates hold there.
#[derive(Drop)]
pub struct Split {
    pub filter: Filter,
    /// The predicates of `PRED`, by their places in the query's list, the innermost first and each once. There is none
    /// without `PRED`.
    pub predicates: Vector<u32>,
}

/// An expression of a clause. Parentheses leave no trace, and in a passing clause quotation marks leave none either.
#[cycle(cover_tree)]
#[derive(Drop)]
pub enum CoverTree {
    /// `NODES`: the nodes that a filter keeps.
    Nodes(Split),
    /// `EDGES`: the edges that a filter keeps. A filter or `PRED` that stands alone is read so.
    Edges(Split),
    /// `PATHS`: the paths over what a filter keeps that have no edge more often than this.
    Paths(Filter, u32),
    /// A predicate, by its place in the query's list, from 0.
    Predicate(u32),
    /// A quoted expression, and the bytes between its quotation marks.
    Quoted {
        body: Boxed<CoverTree>,
        text: Name,
    },
    /// `.`
    Dot(Boxed<CoverTree>, Boxed<CoverTree>),
    /// `+`
    Plus(Boxed<CoverTree>, Boxed<CoverTree>),
    /// `->`
    Arrow(Boxed<CoverTree>, Boxed<CoverTree>),
    /// `*`, `==`, `<=` and `>=`: how often the body occurs, with the column of that mark.
    Repeat {
        body: Boxed<CoverTree>,
        least: u32,
        most: Option<u32>,
        column: u32,
    },
}
