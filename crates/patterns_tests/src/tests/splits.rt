// Whether a segment matches, by trying all splits of it. Paths have at most five states.
use patterns::{Letter, PathView, Pattern};

// How many rows of that many places out of five there are.
const ROWS: [u32; 5] = [1, 5, 25, 125, 625];

// Whether the segment from state i to state j matches.
#[cycle(splits)]
pub fn splits(pattern: &Pattern<Letter>, path: &PathView, i: usize, j: usize) -> bool {
    match pattern {
        Pattern::Nothing => false,
        Pattern::Letter(letter) => letter_matches(letter, path, i, j),
        Pattern::Dot(a, b) => {
            for m in 0..5 {
                if i <= m && m <= j && splits(a, path, i, m) && splits(b, path, m, j) {
                    return true;
                }
            }
            false
        }
        Pattern::Either(a, b) => splits(a, path, i, j) || splits(b, path, i, j),
        Pattern::Repeat { body, least, most } => {
            for count in 0..5 {
                if *least <= count && count <= most.unwrap_or(4) && row(body, path, count, i, j) {
                    return true;
                }
            }
            false
        }
    }
}

// Whether that many matches one after another make the segment.
#[cycle(splits)]
fn row(body: &Pattern<Letter>, path: &PathView, count: u32, i: usize, j: usize) -> bool {
    for code in 0..ROWS.get(count as usize).copied().unwrap_or(0) {
        if is_row(body, path, count, code, i, j) {
            return true;
        }
    }
    false
}

// Whether they do where they end at the digits of the code, in base 5.
#[cycle(splits)]
fn is_row(
    body: &Pattern<Letter>,
    path: &PathView,
    count: u32,
    code: u32,
    i: usize,
    j: usize,
) -> bool {
    let mut at = i;
    let mut rest = code;
    for _ in 0..count {
        let next = (rest % 5) as usize;
        rest /= 5;
        if next < at || !splits(body, path, at, next) {
            return false;
        }
        at = next;
    }
    at == j
}

fn letter_matches(letter: &Letter, path: &PathView, i: usize, j: usize) -> bool {
    match letter {
        Letter::Nodes(nodes) => {
            i == j
                && path
                    .nodes
                    .get(i)
                    .is_some_and(|node| nodes.as_slice().contains(node))
        }
        Letter::Edges(edges) => {
            i < j
                && j - i == 1
                && path
                    .edges
                    .get(i)
                    .is_some_and(|edge| edges.as_slice().contains(edge))
        }
        Letter::Predicate(0) => i == j && (i == 1 || i == 3),
        Letter::Predicate(5) => i == j && i == 4,
        Letter::Predicate(_) => false,
        Letter::Absent(0) => i == j && i != 1 && i != 3,
        Letter::Absent(5) => i == j && i != 4,
        Letter::Absent(_) => i == j,
    }
}
