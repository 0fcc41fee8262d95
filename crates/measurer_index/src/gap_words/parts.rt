// Where the parts of a word between its gaps go first.
ghost use Rattle.std.specs.Prelude.{◌≡◌, ◌≤◌, List, false, true, length, count_by};
ghost use Rattle.measurer_index.specs.gap_words.Parts.{AreLetters, IsFirstGapOrNone, IsFirstStartOrNone, IsGapBegin, IsNoLater, is_edge};

use crate::gap_words::path_places::PathPlaces;
use crate::gap_words::piece::{Piece, Span};
use crate::gap_words::steps::end_of;

/// The first gap of a word, and its place.
#[derive(Clone, Copy, Debug, Drop)]
pub(crate) struct FirstGap {
    pub(crate) place: usize,
    pub(crate) span: Span,
}

/// The first gap of a word.
pub(crate) fn first_gap(word: &[Piece]) -> Option<FirstGap>
    ensures { IsFirstGapOrNone word.now result }
{
    for (place, piece) in word.iter().enumerate() {
        if let Piece::Gap(span) = *piece {
            return Some(FirstGap { place, span });
        }
    }
    None
}

/// This state, if the path has it.
fn state_at(path: &PathPlaces, start: usize) -> Option<usize>
    ensures { (part : List Piece) → IsNoLater path.now part start result }
{
    if start <= path.count() {
        Some(start)
    } else {
        None
    }
}

/// A state before which a row of letters goes from no state, this one or a later one.
fn likely_start(path: &PathPlaces, part: &[Piece], start: usize) -> Option<usize>
    ensures { IsNoLater path.now part.now start result }
{
    let size = part.len();
    if size == 0 {
        return state_at(path, start);
    }
    match part[0] {
        Piece::Edge(edge) => path.next_edge(edge, start),
        Piece::Node(node) => path.next_node(node, start),
        _ => state_at(path, start),
    }
}

/// The first state from this one on from which a row of letters goes.
pub(crate) fn first_start(path: &PathPlaces, part: &[Piece], start: usize) -> Option<usize>
    requires { AreLetters part.now }
    ensures { IsFirstStartOrNone path.now false part.now start result }
{
    let mut from = start;
    while let Some(at) = likely_start(path, part, from) {
        match end_of(path, part, at) {
            Some(_) => return Some(at),
            None if at >= path.count() => return None,
            None => from = at + 1,
        }
    }
    None
}

/// How many edges a row of letters has.
pub(crate) fn edge_count(part: &[Piece]) -> usize
    ensures { result ≡ count_by is_edge part.now }
{
    part.iter().filter(|piece| piece.is_edge()).count()
}

/// The state from which a row of letters goes to the last one, if it is this state or a later one.
fn start_to_last(path: &PathPlaces, part: &[Piece], start: usize) -> Option<usize>
    requires { AreLetters part.now }
    ensures { IsFirstStartOrNone path.now true part.now start result }
{
    let size = edge_count(part);
    if path.count() < size {
        return None;
    }
    let at = path.count() - size;
    if at < start {
        return None;
    }
    match end_of(path, part, at) {
        None => None,
        Some(_) => Some(at),
    }
}

/// The first state from this one on from which a row of letters goes to where it may end.
pub(crate) fn last_start(
    path: &PathPlaces,
    part: &[Piece],
    last: bool,
    start: usize,
) -> Option<usize>
    requires { AreLetters part.now }
    ensures { IsFirstStartOrNone path.now last part.now start result }
{
    if last {
        start_to_last(path, part, start)
    } else {
        first_start(path, part, start)
    }
}

/// The first state from which a gap reaches this one, as far as its set and its greatest number of edges go.
pub(crate) fn gap_begin(path: &PathPlaces, span: Span, state: usize) -> usize
    requires { state ≤ length path.now.edges }
    ensures { IsGapBegin path.now span state result }
{
    let begin = path.begin_at(span.set, state);
    match span.most {
        None => begin,
        Some(most) => begin.max(state.saturating_sub(most as usize)),
    }
}
