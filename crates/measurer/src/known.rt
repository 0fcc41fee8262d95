// The paths of runs that were measured before.
ghost use Rattle.std.specs.Prelude.{◌≡◌, true, IfOk, IfSome};
ghost use Rattle.goals.specs.declared.plan.Plan.{Plan};
ghost use Rattle.measurer_hits.specs.hits.Hits.{path_in};
ghost use Rattle.measurer.specs.Known.{AreKnown, HasHits, view_of};

use fq_core::Memory;
use path_runner::PathRecord;
use std::alloc::Global;
use std::collections::BTreeMap;

/// How many steps of paths and numbers of goals are kept at most.
const MOST: usize = 1 << 20;

/// How many steps of a path its hash is made of, the first ones.
const HASHED: usize = 1 << 12;

/// A path, and the numbers of the goals that a run along it hits if its end is counted.
#[derive(Debug, Drop)]
pub(crate) struct KnownPath {
    nodes: Vec<u32>,
    edges: Vec<u32>,
    masks: Vec<u64>,
    pub(crate) hits: Vec<u32>,
}

/// Some paths of earlier runs, the first ones that came twice, with the goals that they hit. Most inputs of a long list take a
/// path that another one took.
#[derive(Debug, Drop)]
pub(crate) struct KnownPaths {
    paths: Vec<KnownPath>,
    /// By a hash of a path that came, the place of the last path of this hash that is kept, where one is.
    places: BTreeMap<u64, Option<usize>>,
    /// How many steps and numbers are kept.
    size: usize,
}

/// A hash of a path, by which it is kept. Nothing but time depends on it.
pub(crate) fn hash_of(run: &PathRecord) -> u64 {
    let masks = run.masks.as_slice();
    let last = masks.last().copied().unwrap_or(0);
    let mut hash = mixed(run.edges.len() as u64, 0, last);
    for (edge, mask) in run.edges.as_slice().iter().zip(masks).take(HASHED) {
        hash = mixed(hash, *edge, *mask);
    }
    hash
}

/// A step of a hash: with a factor that spreads what is multiplied by it over all numbers of 64 bits.
fn mixed(hash: u64, edge: u32, mask: u64) -> u64 {
    (hash ^ edge as u64 ^ mask.rotate_left(32))
        .wrapping_mul(11_400_714_819_323_198_485)
        .rotate_left(23)
}

/// Whether a run took a known path.
fn is_along(run: &PathRecord, known: &KnownPath) -> bool
    ensures { result ≡ true → path_in run.now ≡ view_of known.now }
{
    run.edges.as_slice() == known.edges.as_slice()
        && run.nodes.as_slice() == known.nodes.as_slice()
        && run.masks.as_slice() == known.masks.as_slice()
}

/// The path of a run, and the goals that it hits.
fn known_path(alloc: Global, run: &PathRecord, hits: &[u32]) -> Result<KnownPath, Memory>
    ensures path { IfOk result (λ known. view_of known ≡ path_in run.now) }
    ensures hits { IfOk result (λ known. known.hits.items ≡ hits.now) }
{
    Ok(KnownPath {
        nodes: Vec::from_slice(alloc, run.nodes.as_slice())?,
        edges: Vec::from_slice(alloc, run.edges.as_slice())?,
        masks: Vec::from_slice(alloc, run.masks.as_slice())?,
        hits: Vec::from_slice(alloc, hits)?,
    })
}

impl KnownPaths {
    /// No paths.
    pub(crate) fn new(alloc: Global) -> KnownPaths
        ensures { (plan : Plan) → AreKnown plan result.paths.items }
    {
        KnownPaths {
            paths: Vec::new(alloc),
            places: BTreeMap::new(alloc),
            size: 0,
        }
    }

    /// The path of a run, if it is known, by its hash.
    pub(crate) fn find(&self, hash: u64, run: &PathRecord) -> Option<&KnownPath>
        ensures { (plan : Plan) → AreKnown plan self.now.paths.items → IfSome result (λ known. HasHits plan (path_in run.now) known.now.hits.items) }
    {
        let place = (*self.places.get(&hash)?)?;
        let known = self.paths.get(place)?;
        if is_along(run, known) {
            Some(known)
        } else {
            None
        }
    }

    /// Keeps the path of a run, whose hash is given, and the goals that it hits, where this hash came before, unless too much
    /// is kept.
    pub(crate) fn keep(
        &mut self,
        alloc: Global,
        hash: u64,
        run: &PathRecord,
        hits: &[u32],
    ) -> Result<(), Memory>
        ensures { (plan : Plan) → AreKnown plan self.old.paths.items → HasHits plan (path_in run.now) hits.now → AreKnown plan self.new.paths.items }
    {
        if !self.places.contains_key(&hash) {
            self.places.insert(hash, None)?;
            return Ok(());
        }
        let size = self
            .size
            .saturating_add(run.edges.len())
            .saturating_add(hits.len());
        if size > MOST {
            return Ok(());
        }
        let known = known_path(alloc, run, hits)?;
        let place = self.paths.len();
        self.paths.push(known)?;
        self.size = size;
        self.places.insert(hash, Some(place))?;
        Ok(())
    }
}
