// Two watched literals a clause, and the queue, which is the trail's unread rest.
ghost use Rattle.std.specs.Prelude.{◌≡◌, ◌+◌, ◌*◌, ◌<◌, ◌≤◌, ◌^◌, ◌++◌, ◌∷◌, [], ◌||◌, ℕ, ℤ, Bool, Some, IfOk, OnOk, false, length, slice_get, if◌then◌else◌};
ghost use Rattle.std.specs.List.{list_any};
ghost use Rattle.std.specs.Ordering.{int_eq};
ghost use Rattle.cnf.specs.Clauses.{literal_key as key_of};
ghost use Rattle.search.specs.Watching.{IsPaired, watchers_of};
ghost use Rattle.search.specs.declared.watching.Watcher.{Watcher as WatcherValue};

use cnf::literal_key;
use std::alloc::{AllocError, Global};

/// The two literals of a clause that are watched.
#[derive(Clone, Copy, Debug)]
pub(crate) struct Pair {
    pub left: i32,
    pub right: i32,
}

/// A clause among those that watch a literal, beside a literal of it, the blocking literal: where that one is true, the
/// clause needs no look.
#[derive(Clone, Copy, Debug)]
pub(crate) struct Watcher {
    pub place: u32,
    pub blocker: i32,
}

/// The watched literals, and how many entries of the trail were read. Clauses go by their places from 0.
#[derive(Debug, Drop)]
pub(crate) struct Watching {
    /// By a literal's key, the clauses that watch it.
    pub watchers: Vec<Vec<Watcher>>,
    /// By a clause's place, its watched literals.
    pub pairs: Vec<Pair>,
    pub head: usize,
}

/// So many empty lists.
pub(crate) fn no_watchers(alloc: Global, count: usize) -> Result<Vec<Vec<Watcher>>, AllocError>
    ensures length { IfOk result (λ lists. length lists.items ≡ count) }
    ensures lists { IfOk result (λ lists. (x : ℤ) → watchers_of lists.items x ≡ []) }
{
    let mut lists = Vec::new(alloc);
    for _ in 0..count {
        lists.push(Vec::new(alloc))?;
    }
    Ok(lists)
}

/// A literal is watched by one more clause.
pub(crate) fn add_watcher(
    watchers: &mut Vec<Vec<Watcher>>,
    literal: i32,
    watcher: Watcher,
) -> Result<(), AllocError>
    requires { key_of literal < length watchers.old.items }
    ensures own { OnOk result (watchers_of watchers.new.items literal ≡ watchers_of watchers.old.items literal ++ watcher ∷ []) }
    ensures length { OnOk result (length watchers.new.items ≡ length watchers.old.items) }
    ensures others { OnOk result ((x : ℤ) → int_eq x literal ≡ false → watchers_of watchers.new.items x ≡ watchers_of watchers.old.items x) }
{
    let list = &mut watchers[literal_key(literal)];
    list.push(watcher)?;
    Ok(())
}

/// A literal is no longer watched by one of its watchers.
pub(crate) fn remove_watcher(watchers: &mut Vec<Vec<Watcher>>, literal: i32, at: usize) -> Watcher
    requires at { at < length (watchers_of watchers.old.items literal) }
    ensures result { slice_get (watchers_of watchers.old.items literal) at ≡ Some result }
    ensures lists { length watchers.new.items ≡ length watchers.old.items }
    ensures length { length (watchers_of watchers.new.items literal) + 1 ≡ length (watchers_of watchers.old.items literal) }
    ensures front { (j : ℕ) → j < at → slice_get (watchers_of watchers.new.items literal) j ≡ slice_get (watchers_of watchers.old.items literal) j }
    ensures rest { (test : WatcherValue → Bool) → list_any test (watchers_of watchers.old.items literal) ≡ (test result || list_any test (watchers_of watchers.new.items literal)) }
    ensures others { (x : ℤ) → int_eq x literal ≡ false → watchers_of watchers.new.items x ≡ watchers_of watchers.old.items x }
{
    let list = &mut watchers[literal_key(literal)];
    list.swap_remove(at)
}

/// A further clause watches two literals.
pub(crate) fn watch_pair(
    watching: &mut Watching,
    place: u32,
    left: i32,
    right: i32,
) -> Result<(), AllocError>
    requires left { key_of left < length watching.old.watchers.items }
    requires right { key_of right < length watching.old.watchers.items }
    requires differ { int_eq left right ≡ false }
    ensures { OnOk result (IsPaired watching.old watching.new place record { left = left; right = right }) }
{
    let blocker = right;
    add_watcher(&mut watching.watchers, left, Watcher { place, blocker })?;
    let blocker = left;
    add_watcher(&mut watching.watchers, right, Watcher { place, blocker })?;
    watching.pairs.push(Pair { left, right })?;
    Ok(())
}

/// How many clauses watch a literal.
pub(crate) fn watcher_count(watchers: &[Vec<Watcher>], literal: i32) -> usize
    requires { key_of literal < length watchers.now }
    ensures { result ≡ length (watchers_of watchers.now literal) }
{
    watchers[literal_key(literal)].len()
}

/// One of the clauses that watch a literal.
pub(crate) fn watcher_at(watchers: &[Vec<Watcher>], literal: i32, at: usize) -> Watcher
    requires { at < length (watchers_of watchers.now literal) }
    ensures { slice_get (watchers_of watchers.now literal) at ≡ Some result }
{
    watchers[literal_key(literal)][at]
}
