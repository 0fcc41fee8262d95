// Expected values: by hand.
ghost use Rattle.std.specs.Prelude.{IsTrue};
ghost use Rattle.std.specs.List.Sorted.{IsStrictlyIncreasing};

use containers::Boxed;
use fq_core::Memory;
use measurer_index::gap_words::{GapSets, GapWord, PathPlaces};
use measurer_index::occurrences::Occurrences;
use patterns::{Letter, NumberSet, Pattern};
use std::alloc::Global;
use std::test::Fail;

type Made = Result<Pattern<Letter>, Memory>;

// A letter of this one edge.
fn edge(alloc: Global, number: u32) -> Made {
    let mut numbers = Vec::new(alloc);
    numbers.push(number)?;
    Ok(Pattern::Letter(Letter::Edges(NumberSet::new(alloc, numbers)?)))
}

// Whether the numbers rise.
fn is_rising(numbers: &[u32]) -> bool
    ensures { IsTrue result → IsStrictlyIncreasing numbers.now }
{
    for at in 1..numbers.len() {
        if numbers[at - 1] >= numbers[at] {
            return false;
        }
    }
    true
}

// So many edges of these, which rise.
fn gap(alloc: Global, numbers: &[u32], least: u32, most: Option<u32>) -> Made {
    if !is_rising(numbers) {
        return Ok(Pattern::Nothing);
    }
    let numbers = Vec::from_slice(alloc, numbers)?;
    let any = Pattern::Letter(Letter::Edges(NumberSet::new(alloc, numbers)?));
    Ok(Pattern::Repeat {
        body: Boxed::new(alloc, any)?,
        least,
        most,
    })
}

fn dot(alloc: Global, a: Pattern<Letter>, b: Pattern<Letter>) -> Made {
    Ok(Pattern::Dot(Boxed::new(alloc, a)?, Boxed::new(alloc, b)?))
}

// Whether a path of the edges 2 1 5 2 0 5 matches a pattern that is a row of letters and gaps.
fn is_matched(
    alloc: Global,
    pattern: &Pattern<Letter>,
    first: bool,
    last: bool,
) -> Result<Option<bool>, Memory> {
    let mut sets = GapSets::new(alloc);
    sets.add(alloc, pattern)?;
    let nodes = [0, 1, 2, 3, 4, 5, 6];
    let edges = [2, 1, 5, 2, 0, 5];
    let masks = [0; 7];
    let path = PathPlaces::new(alloc, &nodes, &edges, &masks, &sets)?;
    match GapWord::of(alloc, pattern, &sets)? {
        None => Ok(None),
        Some(word) => Ok(Some(word.has_match(&path, first, last))),
    }
}

// Whether it has one edge, then so many of these, and then another.
fn has_pair(
    alloc: Global,
    a: u32,
    over: (&[u32], u32, Option<u32>),
    b: u32,
    first: bool,
    last: bool,
) -> Result<Option<bool>, Memory> {
    let (set, least, most) = over;
    let front = dot(alloc, edge(alloc, a)?, gap(alloc, set, least, most)?)?;
    let pattern = dot(alloc, front, edge(alloc, b)?)?;
    is_matched(alloc, &pattern, first, last)
}

static ALL: [u32; 6] = [0, 1, 2, 3, 4, 5];

#[test]
fn pairs_of_edges(rt: HostRuntime) -> Result<(), Fail> {
    let alloc = rt.alloc();
    let all = (ALL.as_slice(), 0, None);
    for (a, b, first, last, expected) in [
        (2, 5, true, true, true),
        (2, 1, false, false, true),
        (1, 2, false, false, true),
        (0, 2, false, false, false),
        (1, 5, true, false, false),
        (2, 1, false, true, false),
    ] {
        assert_eq!(rt; has_pair(alloc, a, all, b, first, last)?, Some(expected));
    }
    Ok(())
}

// The gap ends at an edge of another kind, and has so many edges.
#[test]
fn gaps_of_sets(rt: HostRuntime) -> Result<(), Fail> {
    let alloc = rt.alloc();
    for (a, set, least, most, b, expected) in [
        (2, [0].as_slice(), 0, None, 5, true),
        (2, [3].as_slice(), 0, None, 5, false),
        (2, [1].as_slice(), 1, None, 5, true),
        (1, [0, 2].as_slice(), 0, None, 0, false),
        (1, [2, 5].as_slice(), 0, None, 0, true),
        (1, [2, 5].as_slice(), 2, Some(2), 0, true),
        (1, [2, 5].as_slice(), 0, Some(1), 0, false),
        (1, [2, 5].as_slice(), 3, None, 0, false),
        (2, [0, 1, 5].as_slice(), 3, None, 5, false),
        (2, ALL.as_slice(), 2, Some(3), 0, true),
        (2, ALL.as_slice(), 1, Some(2), 0, false),
        (2, ALL.as_slice(), 4, Some(4), 5, true),
    ] {
        let found = has_pair(alloc, a, (set, least, most), b, false, false)?;
        assert_eq!(rt; found, Some(expected), "{a} {least} {b}");
    }
    Ok(())
}

#[test]
fn other_patterns_have_no_word(rt: HostRuntime) -> Result<(), Fail> {
    let word = GapWord::of(rt.alloc(), &Pattern::Nothing, &GapSets::new(rt.alloc()))?;
    assert!(rt; word.is_none());
    Ok(())
}

#[test]
fn places_of_numbers(rt: HostRuntime) -> Result<(), Fail> {
    let table = Occurrences::new(rt.alloc(), &[3, 1, 3, 3, 0, 1, 3])?;
    for (number, start, expected) in [
        (3, 0, Some(0)),
        (3, 1, Some(2)),
        (3, 3, Some(3)),
        (3, 4, Some(6)),
        (3, 7, None),
        (1, 0, Some(1)),
        (1, 2, Some(5)),
        (1, 6, None),
        (0, 1, Some(4)),
        (0, 5, None),
        (2, 0, None),
        (4, 0, None),
        (u32::MAX, 0, None),
    ] {
        assert_eq!(rt;
            table.first_from(number, start),
            expected,
            "{number} {start}"
        );
    }
    assert!(rt; table.stands_from(3, 6));
    assert!(rt; !table.stands_from(1, 6));
    assert_eq!(rt; table.as_slice().len(), 7);
    Ok(())
}
