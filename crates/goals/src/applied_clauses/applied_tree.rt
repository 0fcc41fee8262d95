// The trees of clauses whose filters have been applied.
use containers::{Boxed, Vector};
use fq_core::Name;
use patterns::NumberSet;

/// An expression of a clause, with what its letters stand for. An arrow `A -> B` is `A."ID*".B` here.
#[derive(Drop)]
pub enum AppliedTree {
    /// `NODES`: these nodes, told apart by the predicates of these numbers, the innermost of `PRED` first.
    Nodes(NumberSet, Vector<u32>),
    /// `EDGES`: these edges, told apart so where they begin and where they end.
    Edges(NumberSet, Vector<u32>),
    /// `PATHS`: these paths, in order, each as its edges.
    Paths(Vector<Vector<u32>>),
    /// A predicate, by its place in the query's list, from 0.
    Predicate(u32),
    /// A quoted expression, and the bytes between its quotation marks.
    Quoted {
        body: Boxed<AppliedTree>,
        text: Name,
    },
    /// `.`
    Dot(Boxed<AppliedTree>, Boxed<AppliedTree>),
    /// `+`
    Plus(Boxed<AppliedTree>, Boxed<AppliedTree>),
    /// At least so many times, and at most so many where there is a bound.
    Repeat {
        body: Boxed<AppliedTree>,
        least: u32,
        most: Option<u32>,
    },
}
