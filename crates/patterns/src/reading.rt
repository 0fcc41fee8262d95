ghost use Rattle.std.specs.Prelude.{◌≡◌, ◌<◌, ◌≤◌, ◌+◌, ◌↔◌, List, Bool, ℕ, true, IfOk, length, slice_index_or, Some, None};
ghost use Rattle.patterns.specs.Letters.{form};
ghost use Rattle.patterns.specs.Match.{Match, LetterMatch, Turns};
ghost use Rattle.patterns.specs.Paths.{IsPath, step_of};
ghost use Rattle.patterns.specs.Places.{IsMarked, EndsAt, EndsOf, Rounds};

use crate::letter::Letter;
use crate::path_view::PathView;
use crate::pattern::Pattern;
use crate::places::{either_places, no_places, one_place, place_count};
use fq_core::Memory;

/// Whether the segment of the path from one state to another matches, by the sets of places that matches reach.
///
/// States count from 0. It is slow, and made to be compared with.
pub fn matches(
    pattern: &Pattern<Letter>,
    path: &PathView,
    from: u32,
    to: u32,
) -> Result<bool, Memory>
    requires path { IsPath path.now }
    requires order { from ≤ to }
    requires within { to ≤ length path.now.edges }
    ensures { IfOk result (λ b. (b ≡ true) ↔ Match (step_of path.now) (form pattern.now) from to) }
{
    let starts = one_place(path.nodes.allocator(), to as usize + 1, from as usize)?;
    let ends = ends_of(path, pattern, &starts)?;
    Ok(ends[to as usize])
}

/// Where matches of the pattern end that begin at a place of the set.
#[cycle(ends)]
fn ends_of(path: &PathView, pattern: &Pattern<Letter>, starts: &[bool]) -> Result<Vec<bool>, Memory>
    requires path { IsPath path.now }
    requires within { length starts.now ≤ length path.now.edges + 1 }
    ensures { IfOk result (λ ends. EndsOf (Match (step_of path.now) (form pattern.now)) starts.now ends.items) }
{
    match pattern {
        Pattern::Nothing => no_places(path.nodes.allocator(), starts.len()),
        Pattern::Letter(letter) => letter_ends(path, letter, starts),
        Pattern::Dot(a, b) => {
            let middle = ends_of(path, a, starts)?;
            ends_of(path, b, &middle)
        }
        Pattern::Either(a, b) => {
            let first = ends_of(path, a, starts)?;
            let second = ends_of(path, b, starts)?;
            either_places(path.nodes.allocator(), &first, &second)
        }
        Pattern::Repeat { body, least, most } => match most {
            None => {
                let row = turns(path, body, *least, starts)?;
                any_turns(path, body, row)
            }
            Some(most) => {
                if *most < *least {
                    return no_places(path.nodes.allocator(), starts.len());
                }
                let row = turns(path, body, *least, starts)?;
                some_turns(path, body, row, *most - *least)
            }
        },
    }
}

/// Where this many matches one after another end.
#[cycle(ends)]
fn turns(
    path: &PathView,
    body: &Pattern<Letter>,
    count: u32,
    starts: &[bool],
) -> Result<Vec<bool>, Memory>
    requires path { IsPath path.now }
    requires within { length starts.now ≤ length path.now.edges + 1 }
    ensures { IfOk result (λ ends. EndsOf (Turns (Match (step_of path.now) (form body.now)) count) starts.now ends.items) }
{
    let mut ends = Vec::from_slice(path.nodes.allocator(), starts)?;
    for _ in 0..count {
        ends = ends_of(path, body, &ends)?;
    }
    Ok(ends)
}

/// Where those matches end with up to this many more after them.
#[cycle(ends)]
fn some_turns(
    path: &PathView,
    body: &Pattern<Letter>,
    row: Vec<bool>,
    more: u32,
) -> Result<Vec<bool>, Memory>
    requires path { IsPath path.now }
    requires within { length row.items ≤ length path.now.edges + 1 }
    ensures { (starts : List Bool) (least : ℕ) → EndsOf (Turns (Match (step_of path.now) (form body.now)) least) starts row.items →
        IfOk result (λ ends. EndsOf (Rounds (Match (step_of path.now) (form body.now)) least (Some (least + more))) starts ends.items) }
{
    let mut ends = row;
    for _ in 0..more {
        let next = ends_of(path, body, &ends)?;
        ends = either_places(path.nodes.allocator(), &ends, &next)?;
    }
    Ok(ends)
}

/// Where those matches end with any number more after them: until no place is new.
#[cycle(ends)]
fn any_turns(path: &PathView, body: &Pattern<Letter>, row: Vec<bool>) -> Result<Vec<bool>, Memory>
    requires path { IsPath path.now }
    requires within { length row.items ≤ length path.now.edges + 1 }
    ensures { (starts : List Bool) (least : ℕ) → EndsOf (Turns (Match (step_of path.now) (form body.now)) least) starts row.items →
        IfOk result (λ ends. EndsOf (Rounds (Match (step_of path.now) (form body.now)) least None) starts ends.items) }
{
    let mut ends = row;
    let mut count = place_count(&ends);
    loop {
        let next = ends_of(path, body, &ends)?;
        ends = either_places(path.nodes.allocator(), &ends, &next)?;
        let more = place_count(&ends);
        if more == count {
            return Ok(ends);
        }
        count = more;
    }
}

/// Where matches of one letter end.
fn letter_ends(path: &PathView, letter: &Letter, starts: &[bool]) -> Result<Vec<bool>, Memory>
    requires path { IsPath path.now }
    requires within { length starts.now ≤ length path.now.edges + 1 }
    ensures { IfOk result (λ ends. EndsOf (LetterMatch (step_of path.now) letter.now) starts.now ends.items) }
{
    let mut ends = Vec::new(path.nodes.allocator());
    for place in 0..starts.len() {
        ends.push(letter_ends_at(path, letter, starts, place))?;
    }
    Ok(ends)
}

/// Whether a match of one letter ends at this place.
fn letter_ends_at(path: &PathView, letter: &Letter, starts: &[bool], place: usize) -> bool
    requires path { IsPath path.now }
    requires within { length starts.now ≤ length path.now.edges + 1 }
    requires place { place < length starts.now }
    ensures { (result ≡ true) ↔ EndsAt (LetterMatch (step_of path.now) letter.now) starts.now place }
{
    let alone = starts[place] && letter.has_state(path.nodes[place], path.masks[place]);
    let over_edge = place > 0 && starts[place - 1] && letter.has_edge(path.edges[place - 1]);
    alone || over_edge
}
