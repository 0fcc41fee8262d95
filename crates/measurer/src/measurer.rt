// The measurer.
ghost use Rattle.std.specs.Prelude.{◌≡◌, ◌↔◌, ◌⊎◌, [], ◌∷◌, ◌++◌, List, ℕ, IsTrue, true, false, IfOk, OnOk, OnErr, slice_index};
ghost use Rattle.std.specs.List.{Contains};
ghost use Rattle.patterns.specs.Paths.{IsPath};
ghost use Rattle.measurer.specs.Firsts.{first_hit, or_none};
ghost use Rattle.measurer_index.specs.word_index.Numbers.{Adds};
ghost use Rattle.measurer_index.specs.word_index.Walks.{HasGoalWalk};
ghost use Rattle.measurer_hits.specs.hits.Hits.{AreHits, HitsNumber, path_in};
ghost use Rattle.c_meaning.specs.declared.ends.Ends.{Ends as OneEnds};
ghost use Rattle.path_runner.specs.Counted.{counts_end};
ghost use Rattle.measurer.specs.Known.{AreKnown};
ghost use Rattle.measurer.specs.Measured.{HasOtherMatch, IsFor};

use crate::firsts::note;
use crate::known::{KnownPaths, hash_of};
use crate::others::add_others;
use crate::passing::meets_passing;
use crate::tables::{Tables, tables_of};
use containers::Vector;
use fq_core::Memory;
use goals::Plan;
use measurer_hits::run_match::RunPath;
use measurer_index::word_index::Numbers;
use path_runner::{Ends, PathRecord};
use std::alloc::Global;

/// Tells which goals of a plan recorded runs hit. Contracts see what plan it was made for (`IsMadeFor`) and the hits of each
/// run so far (`hits_of`).
#[derive(Drop)]
pub struct Measurer {
    tables: Tables,
    /// Paths of earlier runs, whose hits aren't sought again.
    known: KnownPaths,
    /// The numbers of the goals that a run hits, while they are gathered.
    numbers: Numbers,
    hits: Vector<Vector<u32>>,
    /// The number of the first run that hits a goal, by the goal's number, or 0.
    firsts: Vec<u32>,
    ghost first_runs: { (goal : ℕ) → or_none (slice_index firsts.items goal) ≡ first_hit hits goal },
}

impl Measurer {
    ghost use Rattle.std.specs.Prelude.{◌≡◌, ◌↔◌, ◌⊎◌, [], ◌∷◌, ◌++◌, List, ℕ, true, false, IfOk, OnOk, OnErr, slice_index};
    ghost use Rattle.patterns.specs.Paths.{IsPath};
    ghost use Rattle.measurer.specs.Firsts.{first_hit, or_none};
    ghost use Rattle.measurer_hits.specs.hits.Hits.{AreHits, path_in};
    ghost use Rattle.measurer.specs.Measurers.{IsMadeFor, hits_of};

    /// A measurer for the goals of a plan, without runs.
    ///
    /// # Errors
    ///
    /// Want of memory alone.
    pub fn new(alloc: Global, plan: &Plan) -> Result<Measurer, Memory>
        ensures plan { IfOk result (λ measurer. IsMadeFor plan.now measurer) }
        ensures hits { IfOk result (λ measurer. hits_of measurer ≡ []) }
    {
        Ok(Measurer {
            tables: tables_of(alloc, plan)?,
            known: KnownPaths::new(alloc),
            numbers: Numbers::new(alloc, plan.goals.len())?,
            hits: Vector::new(alloc),
            firsts: Vec::new(alloc),
        })
    }

    /// Adds a run: appends the list of the goals that it hits, by their numbers from 1, in rising order. The list is empty
    /// unless the ends count the run's end.
    ///
    /// # Errors
    ///
    /// Want of memory alone. Then the lists of hits are as they were.
    pub fn add(&mut self, plan: &Plan, run: &PathRecord, ends: Ends) -> Result<(), Memory>
        requires plan { IsMadeFor plan.now self.old }
        requires path { IsPath (path_in run.now) }
        ensures plan { IsMadeFor plan.now self.new }
        ensures hits { OnOk result ((last : List ℕ) × ((hits_of self.new ≡ hits_of self.old ++ last ∷ []) × AreHits plan.now ends run.now last)) }
        ensures refused { OnErr result (hits_of self.new ≡ hits_of self.old) }
    {
        let alloc = self.hits.allocator();
        let hits = found(
            alloc,
            &self.tables,
            &mut self.known,
            &mut self.numbers,
            plan,
            run,
            ends,
        )?;
        note(&mut self.hits, &mut self.firsts, hits)
    }

    /// The goals that each added run hits, in the order in which the runs were added.
    pub fn hits(&self) -> &[Vector<u32>]
        ensures { result.now ≡ hits_of self.now }
    {
        self.hits.as_slice()
    }

    /// The goals that each added run hits, in the order in which the runs were added, for good.
    pub fn into_hits(self) -> Vector<Vector<u32>>
        ensures { result ≡ hits_of self }
    {
        let Measurer {
            tables: _tables,
            known: _known,
            numbers: _numbers,
            hits,
            firsts: _firsts,
        } = self;
        hits
    }

    /// The number, from 1, of the first added run that hits the goal of this number. It takes constant time.
    pub fn first(&self, goal: u32) -> Option<u32>
        ensures { result ≡ first_hit (hits_of self.now) goal }
    {
        match self.firsts.get(goal as usize).copied() {
            Some(0) | None => None,
            Some(number) => Some(number),
        }
    }
}

/// The path that a run took.
fn path_in(run: &PathRecord) -> RunPath<'_>
    requires { IsPath (path_in run.now) }
    ensures { result ≡ path_in run.now }
{
    let nodes = run.nodes.as_slice();
    let edges = run.edges.as_slice();
    let masks = run.masks.as_slice();
    RunPath::new(nodes, edges, masks)
}

/// Adds the numbers of the goals of whose patterns a path has a match.
fn add_found(
    alloc: Global,
    tables: &Tables,
    plan: &Plan,
    path: &RunPath,
    numbers: &mut Numbers,
) -> Result<(), Memory>
    requires { IsFor plan.now tables.now }
    ensures { OnOk result (Adds (λ n. HasGoalWalk plan.now.goals plan.now.first plan.now.last path.now n ⊎ HasOtherMatch plan.now.goals plan.now.first plan.now.last path.now n) numbers.old numbers.new) }
{
    let goals = plan.goals.as_slice();
    let index = &tables.index;
    index.add_walks(goals, path, plan.first, plan.last, numbers)?;
    let matchers = tables.matchers.as_slice();
    let sets = &tables.sets;
    add_others(alloc, matchers, sets, path, plan.first, plan.last, numbers)
}

/// Gathers the numbers of the goals that a run hits whose end is counted.
fn gather(
    alloc: Global,
    tables: &Tables,
    plan: &Plan,
    run: &PathRecord,
    numbers: &mut Numbers,
) -> Result<(), Memory>
    requires plan { IsFor plan.now tables.now }
    requires path { IsPath (path_in run.now) }
    ensures { (ends : OneEnds) → IsTrue (counts_end ends run.now.end) → OnOk result ((n : ℕ) → Contains numbers.new n ↔ HitsNumber plan.now ends run.now n) }
{
    numbers.clear();
    let path = path_in(run);
    if !meets_passing(alloc, &tables.passing, &path)? {
        return Ok(());
    }
    add_found(alloc, tables, plan, &path, numbers)
}

/// The numbers of the goals that a run hits, in rising order: those of a known path, or those that are found.
fn found(
    alloc: Global,
    tables: &Tables,
    known: &mut KnownPaths,
    numbers: &mut Numbers,
    plan: &Plan,
    run: &PathRecord,
    ends: Ends,
) -> Result<Vec<u32>, Memory>
    requires plan { IsFor plan.now tables.now }
    requires path { IsPath (path_in run.now) }
    requires known { AreKnown plan.now known.old.paths.items }
    ensures hits { IfOk result (λ hits. AreHits plan.now ends run.now hits.items) }
    ensures known { AreKnown plan.now known.new.paths.items }
{
    if !run.end.is_counted(ends) {
        return Ok(Vec::new(alloc));
    }
    let hash = hash_of(run);
    if let Some(path) = known.find(hash, run) {
        return Ok(Vec::from_slice(alloc, &path.hits)?);
    }
    gather(alloc, tables, plan, run, numbers)?;
    let hits = numbers.rising(alloc)?;
    // Where it isn't kept for want of memory, it is walked again.
    let _kept = known.keep(alloc, hash, run, &hits);
    Ok(hits)
}
