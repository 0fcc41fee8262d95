// What an unwinding within bounds is.
use bit_words::Word;
use c_meaning::Ends;
use circuit::{Circuit, Lit};
use containers::Vector;
use unwinder_reach::reached::Bounds;

/// A state that runs may be in: the start, or the end of an edge into a pair of node and context.
#[derive(Drop)]
pub struct Entry {
    /// The edge into the state, none for the start.
    pub edge: Option<u32>,
    pub node: u32,
    /// Holds in the world of an input where its run is here.
    pub guard: Lit,
    /// The truth of each predicate here.
    pub predicates: Vector<Lit>,
    /// Holds where the run ends here in a way that counts.
    pub ended: Lit,
}

/// All runs of a function within bounds.
#[derive(Drop)]
pub struct Unwound {
    pub entry: u32,
    pub bounds: Bounds,
    pub ends: Ends,
    /// How many pairs of node and context are reached within the bounds.
    pub pairs: u32,
    pub circuit: Circuit,
    /// The arguments, each as a value of its parameter's kind.
    pub words: Vector<Word>,
    /// The answers that are within the bounds.
    pub answers: Vector<Word>,
    pub entries: Vector<Entry>,
}
