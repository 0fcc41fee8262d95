// Words of letters and gaps.
ghost use Rattle.std.specs.Prelude.{◌≡◌, ◌<◌, ◌+◌, length, drop};
ghost use Rattle.measurer_index.specs.gap_words.Parts.{IsFirstStartOrNone};

use crate::gap_words::gap_sets::GapSets;
use crate::gap_words::parts::{edge_count, first_gap, first_start, gap_begin, last_start};
use crate::gap_words::path_places::PathPlaces;
use crate::gap_words::piece::Piece;
use crate::gap_words::spelling::add_pieces;
use fq_core::Memory;
use patterns::{Letter, Pattern};
use std::alloc::Global;

/// A pattern as a row of letters and gaps.
#[derive(Debug, Drop)]
pub struct GapWord {
    pieces: Vec<Piece>,
}

/// What stands behind a place of a word.
fn rest_after(word: &[Piece], place: usize) -> &[Piece]
    requires { place < length word.now }
    ensures { result.now ≡ drop (place + 1) word.now }
{
    &word[place + 1..]
}

/// The first state from this one on from which a word goes to where it may end.
///
/// The part before the first gap begins at the first state from which it goes, and what stands behind the gap at the first
/// one that is far enough. Where the gap doesn't reach that one, no end of the part before the gap's beginning is of use, so
/// the search goes on from there. What stands behind the gap is sought again only past where it was found, so that each of
/// the word's parts goes along the path once.
fn word_start(path: &PathPlaces, word: &[Piece], last: bool, start: usize) -> Option<usize>
    ensures { IsFirstStartOrNone path.now last word.now start result }
{
    let Some(gap) = first_gap(word) else {
        return last_start(path, word, last, start);
    };
    let part = &word[..gap.place];
    let rest = rest_after(word, gap.place);
    let Some(mut next) = word_start(path, rest, last, start) else {
        return None;
    };
    let size = edge_count(part);
    let least = gap.span.least as usize;
    let count = path.count();
    let mut from = start;
    while let Some(at) = first_start(path, part, from) {
        let end = at + size;
        if count - end < least {
            return None;
        }
        let needed = end + least;
        if next < needed {
            match word_start(path, rest, last, needed) {
                None => return None,
                Some(later) => next = later,
            }
        }
        let begin = gap_begin(path, gap.span, next);
        if begin <= end {
            return Some(at);
        }
        from = begin - size;
    }
    None
}

impl GapWord {
    ghost use Rattle.std.specs.Prelude.{◌≡◌, ◌↔◌, true, IfOk, IfSome};
    ghost use Rattle.patterns.specs.Letters.{form};
    ghost use Rattle.patterns.specs.Match.{Form};
    ghost use Rattle.patterns.specs.Segments.{HasSegment};
    ghost use Rattle.measurer_index.specs.gap_words.GapWords.{IsGapWordOf};
    ghost use Rattle.measurer_index.specs.gap_words.Placed.{path_of};

    /// The word of a pattern that is a row of letters and gaps: edges, nodes and predicates, and repetitions of edges of one
    /// of these sets.
    ///
    /// # Errors
    ///
    /// Want of memory alone.
    pub fn of(
        alloc: Global,
        pattern: &Pattern<Letter>,
        sets: &GapSets,
    ) -> Result<Option<GapWord>, Memory>
        ensures { IfOk result (λ o. IfSome o (λ word. IsGapWordOf sets.now (form pattern.now) word)) }
    {
        let mut pieces = Vec::new(alloc);
        if !add_pieces(pattern, sets, &mut pieces)? {
            return Ok(None);
        }
        Ok(Some(GapWord { pieces }))
    }

    /// Whether some segment of the path matches the pattern, from the first state and to the last one where that is asked,
    /// where the path has the sets of the word's gaps.
    pub fn has_match(&self, path: &PathPlaces, first: bool, last: bool) -> bool
        ensures { (pattern : Form Letter) → IsGapWordOf path.now.sets pattern self.now → (result ≡ true) ↔ HasSegment first last pattern (path_of path.now) }
    {
        match word_start(path, &self.pieces, last, 0) {
            None => false,
            Some(start) => !first || start == 0,
        }
    }
}
