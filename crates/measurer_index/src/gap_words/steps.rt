// Where letters and rows of letters go.
ghost use Rattle.std.specs.Prelude.{◌≡◌, ◌==◌, ◌≤◌, length, slice_index};
ghost use Rattle.std.specs.Int.{bit_at};
ghost use Rattle.measurer_index.specs.gap_words.Parts.{AreLetters, IsEnd, IsLetter, IsStep};

use crate::gap_words::path_places::PathPlaces;
use crate::gap_words::piece::Piece;
use patterns::Letter;

/// Whether a predicate holds at a state.
fn holds(path: &PathPlaces, number: u32, at: usize) -> bool
    ensures { result ≡ (bit_at (slice_index path.now.masks at) number == 1) }
{
    let mask = path.mask_at(at);
    let predicate = Letter::Predicate(number);
    predicate.has_state(0, mask)
}

/// Where an edge goes from a state.
fn edge_step(path: &PathPlaces, edge: u32, at: usize) -> Option<usize>
    requires { at ≤ length path.now.edges }
    ensures { IsStep path.now (Piece.Edge edge) at result }
{
    if at < path.count() && path.edge_at(at) == edge {
        Some(at + 1)
    } else {
        None
    }
}

/// Where a letter goes from a state.
pub(crate) fn step(path: &PathPlaces, piece: Piece, at: usize) -> Option<usize>
    requires at { at ≤ length path.now.edges }
    requires letter { IsLetter piece }
    ensures { IsStep path.now piece at result }
{
    let stays = match piece {
        Piece::Edge(edge) => return edge_step(path, edge, at),
        Piece::Node(node) => path.node_at(at) == node,
        Piece::Predicate(number) => holds(path, number, at),
        Piece::Absent(number) => !holds(path, number, at),
        Piece::Gap(_) => true,
    };
    if stays { Some(at) } else { None }
}

/// Where a row of letters goes from a state.
pub(crate) fn end_of(path: &PathPlaces, part: &[Piece], start: usize) -> Option<usize>
    requires start { start ≤ length path.now.edges }
    requires letters { AreLetters part.now }
    ensures { IsEnd path.now part.now start result }
{
    let mut at = start;
    for piece in part {
        match step(path, *piece, at) {
            None => return None,
            Some(next) => at = next,
        }
    }
    Some(at)
}
