// Queries.
use crate::cover::CoverTree;
use crate::filter::Filter;
use containers::Vector;
use fq_core::Name;

/// A clause, and whether `^` stands before it and `$` after it.
#[derive(Drop)]
pub struct Clause {
    pub first: bool,
    pub body: CoverTree,
    pub last: bool,
}

/// A query: `in` a base graph `cover` a clause `passing` a clause.
#[derive(Drop)]
pub struct Query {
    pub base: Option<Filter>,
    pub cover: Clause,
    pub passing: Option<Clause>,
    /// The texts of the predicates, each once, in the order of first use.
    pub predicates: Vector<Name>,
}
