// A search in depth for the pairs that are reached.
ghost use Rattle.std.specs.Prelude.{◌≡◌, ◌<◌, ◌≤◌, ℕ, [], Some, None, OnOk, IfOk, IfErr};
ghost use Rattle.cfa.specs.declared.parts.Function.{Function as OneFunction};
ghost use Rattle.cfa.specs.Contexts.{IsOnce};
ghost use Rattle.unwinder_reach.specs.declared.reached.bounds.Bounds.{Bounds as WalkBounds};
ghost use Rattle.unwinder_reach.specs.reached.Reaching.{IsReachedFault};
ghost use Rattle.unwinder_reach.specs.reached.Searching.{AreListed, IsBetween, IsFunctionOf, IsSearchOf, ComesNext, work_of};

use crate::reached::bounds::Bounds;
use crate::reached::context::first_pair;
use crate::reached::frames::first_number;
use crate::reached::key::key_by;
use crate::reached::keys::Keys;
use crate::reached::pair::NodeInContext;
use crate::reached::ways::{numbered_along, ways};
use cfa::{Function, Graph};
use containers::Vector;
use fq_core::{Fault, Place, Refusal};
use std::alloc::Global;

/// How many pairs may be reached.
const MOST_PAIRS: usize = 50_000;

/// The code of a refusal for too many pairs.
const TOO_MANY_PAIRS: u16 = 80;

/// A pair on the way, with the edges that are still to be followed from it.
#[derive(Drop)]
pub(crate) struct Open {
    pub(crate) pair: NodeInContext,
    /// The number of its frames.
    pub(crate) frames: u32,
    pub(crate) ways: Vector<u32>,
}

/// A search in depth, with a stack of its own.
#[derive(Drop)]
pub(crate) struct Search {
    /// The entries of all frames that were met.
    pub(crate) frames: Keys,
    /// The keys of all pairs that were found.
    pub(crate) keys: Keys,
    /// The pairs of which all edges were followed, in the order in which that was done.
    pub(crate) finished: Vector<NodeInContext>,
    /// The numbers of their frames.
    pub(crate) numbers: Vector<u32>,
    /// The pairs on the way from the first one to the one that is looked at.
    pub(crate) way: Vector<Open>,
}

/// The pairs that are reached, so ordered that each step leads to a later one.
#[derive(Drop)]
pub(crate) struct Listed {
    pub(crate) pairs: Vec<NodeInContext>,
    /// The numbers of their frames.
    pub(crate) numbers: Vec<u32>,
    /// The entries of all frames that were met.
    pub(crate) frames: Keys,
}

impl Search {
    // Nothing was found yet.
    fn new(alloc: Global) -> Search
        ensures { (result.frames ≡ []) × (result.keys ≡ []) × (result.finished ≡ []) × (result.numbers ≡ []) × (result.way ≡ []) }
    {
        Search {
            frames: Keys::new(alloc),
            keys: Keys::new(alloc),
            finished: Vector::new(alloc),
            numbers: Vector::new(alloc),
            way: Vector::new(alloc),
        }
    }

    // Goes on to the pair that comes next, unless it was found before. It cannot be on the way, since no walk comes to a
    // pair twice.
    fn visit(
        &mut self,
        alloc: Global,
        graph: &Graph,
        pair: NodeInContext,
        frames: u32,
    ) -> Result<(), Fault>
        ensures ok { OnOk result ((bounds : WalkBounds) (k : ℕ) (f : OneFunction) → ComesNext graph.now bounds k f pair frames self.old → IsSearchOf graph.now bounds k f None self.new) }
        ensures work { OnOk result (work_of self.new ≤ work_of self.old) }
        ensures err { IfErr result (λ fault. (bounds : WalkBounds) (k : ℕ) (f : OneFunction) → ComesNext graph.now bounds k f pair frames self.old → IsReachedFault graph.now bounds f fault) }
    {
        let key = key_by(alloc, frames, &pair)?;
        if !self.keys.add(key)? {
            return Ok(());
        }
        if self.keys.len() > MOST_PAIRS {
            return Err(Fault::Refused(Refusal {
                code: TOO_MANY_PAIRS,
                place: Place::Limit {
                    number: MOST_PAIRS as u64,
                },
            }));
        }
        let ways = Vector::from_vec(ways(alloc, graph, &pair)?);
        let _left = ways.len();
        self.way.push(Open { pair, frames, ways })?;
        Ok(())
    }

    // Follows an edge of the pair that was last on the way, or finishes that pair where none is left.
    fn advance(&mut self, alloc: Global, graph: &Graph, bounds: &Bounds) -> Result<(), Fault>
        requires { self.old.way ≡ [] → ⊥ }
        ensures ok { OnOk result ((k : ℕ) (f : OneFunction) → IsSearchOf graph.now bounds.now k f None self.old → IsSearchOf graph.now bounds.now k f None self.new) }
        ensures work { OnOk result ((k : ℕ) (f : OneFunction) → IsSearchOf graph.now bounds.now k f None self.old → work_of self.new < work_of self.old) }
        ensures err { IfErr result (λ fault. (k : ℕ) (f : OneFunction) → IsSearchOf graph.now bounds.now k f None self.old → IsReachedFault graph.now bounds.now f fault) }
    {
        let Some(top) = self.way.pop() else {
            return Ok(());
        };
        let Open {
            pair,
            frames,
            mut ways,
        } = top;
        match ways.pop() {
            None => {
                self.finished.push(pair)?;
                self.numbers.push(frames)?;
                Ok(())
            }
            Some(at) => {
                let next = numbered_along(
                    alloc,
                    graph,
                    bounds,
                    &mut self.frames,
                    &pair,
                    frames,
                    at,
                )?;
                self.way.push(Open { pair, frames, ways })?;
                match next {
                    None => Ok(()),
                    Some((next, number)) => self.visit(alloc, graph, next, number),
                }
            }
        }
    }
}

// Where a search begins: the first pair was found.
fn begin(alloc: Global, graph: &Graph, function: &Function) -> Result<Search, Fault>
    requires once { IsOnce graph.now }
    requires there { IsFunctionOf graph.now function.now }
    ensures ok { IfOk result (λ search. (bounds : WalkBounds) → IsBetween graph.now bounds function.now search) }
    ensures err { IfErr result (λ fault. (bounds : WalkBounds) → IsReachedFault graph.now bounds function.now fault) }
{
    let first = first_pair(alloc, function)?;
    let mut search = Search::new(alloc);
    let number = first_number(alloc, &mut search.frames, first.frames())?;
    match search.visit(alloc, graph, first, number) {
        Err(fault) => Err(fault),
        Ok(()) => Ok(search),
    }
}

// A whole search.
fn search_from(
    alloc: Global,
    graph: &Graph,
    bounds: &Bounds,
    function: &Function,
) -> Result<Search, Fault>
    requires once { IsOnce graph.now }
    requires there { IsFunctionOf graph.now function.now }
    ensures ok { IfOk result (λ search. (search.way ≡ []) × IsBetween graph.now bounds.now function.now search) }
    ensures err { IfErr result (λ fault. IsReachedFault graph.now bounds.now function.now fault) }
{
    let mut search = match begin(alloc, graph, function) {
        Err(fault) => return Err(fault),
        Ok(search) => search,
    };
    'pairs: while !search.way.is_empty() {
        match search.advance(alloc, graph, bounds) {
            Err(fault) => return Err(fault),
            Ok(()) => {}
        }
    }
    Ok(search)
}

/// The pairs that are reached from the entry of a function, so ordered that each step leads to a later one.
pub(crate) fn pairs_in_order(
    alloc: Global,
    graph: &Graph,
    bounds: &Bounds,
    function: &Function,
) -> Result<Listed, Fault>
    requires once { IsOnce graph.now }
    requires there { IsFunctionOf graph.now function.now }
    ensures ok { IfOk result (λ listed. AreListed graph.now bounds.now function.now listed) }
    ensures err { IfErr result (λ fault. IsReachedFault graph.now bounds.now function.now fault) }
{
    match search_from(alloc, graph, bounds, function) {
        Err(fault) => Err(fault),
        Ok(search) => {
            let Search {
                finished,
                numbers,
                frames,
                ..
            } = search;
            let mut pairs = finished.into_vec();
            pairs.reverse();
            let mut numbers = numbers.into_vec();
            numbers.reverse();
            Ok(Listed {
                pairs,
                numbers,
                frames,
            })
        }
    }
}
