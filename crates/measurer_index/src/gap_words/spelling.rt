// The words of patterns.
ghost use Rattle.std.specs.Prelude.{◌≡◌, ◌∷◌, [], ℕ, List, true, IfOk, IfSome};
ghost use Rattle.patterns.specs.Letters.{form};
ghost use Rattle.patterns.specs.Match as plain;
ghost use Rattle.measurer_index.specs.gap_words.Parts.{IsAppended, IsPieceOf};

use crate::gap_words::gap_sets::GapSets;
use crate::gap_words::piece::{Piece, Span};
use fq_core::Memory;
use patterns::{Letter, NumberSet, Pattern};

/// The number of the set, where it has just one.
fn single(set: &NumberSet) -> Option<u32>
    ensures { IfSome result (λ number. set.now ≡ number ∷ []) }
{
    match set.as_slice() {
        [number] => Some(*number),
        _ => None,
    }
}

/// The piece of a letter, where there is one.
fn letter_piece(letter: &Letter) -> Option<Piece>
    ensures { (sets : List (List ℕ)) → IfSome result (λ piece. IsPieceOf sets (plain.letter letter.now) piece) }
{
    match letter {
        Letter::Edges(edges) => match single(edges) {
            None => None,
            Some(edge) => Some(Piece::Edge(edge)),
        },
        Letter::Nodes(nodes) => match single(nodes) {
            None => None,
            Some(node) => Some(Piece::Node(node)),
        },
        Letter::Predicate(number) => Some(Piece::Predicate(*number)),
        Letter::Absent(number) => Some(Piece::Absent(*number)),
    }
}

/// The gap that repetitions of a letter are, where they are one.
fn letter_gap(letter: &Letter, least: u32, most: Option<u32>, sets: &GapSets) -> Option<Piece>
    ensures { IfSome result (λ piece. IsPieceOf sets.now (plain.repeat (plain.letter letter.now) least most) piece) }
{
    match letter {
        Letter::Edges(edges) => match sets.place_of(edges) {
            None => None,
            Some(set) => Some(Piece::Gap(Span { set, least, most })),
        },
        _ => None,
    }
}

/// The gap that repetitions of a pattern are, where they are one.
fn pattern_gap(
    body: &Pattern<Letter>,
    least: u32,
    most: Option<u32>,
    sets: &GapSets,
) -> Option<Piece>
    ensures { IfSome result (λ piece. IsPieceOf sets.now (plain.repeat (form body.now) least most) piece) }
{
    match body {
        Pattern::Letter(letter) => letter_gap(letter, least, most, sets),
        _ => None,
    }
}

/// Adds this piece, if there is one.
fn add_piece(piece: Option<Piece>, pieces: &mut Vec<Piece>) -> Result<bool, Memory>
    ensures { (sets : List (List ℕ)) (pattern : plain.Form Letter) → IfSome piece (λ piece. IsPieceOf sets pattern piece) → IfOk result (λ b. b ≡ true → IsAppended sets pattern pieces.old.items pieces.new.items) }
{
    match piece {
        None => Ok(false),
        Some(piece) => {
            pieces.push(piece)?;
            Ok(true)
        }
    }
}

/// Adds the pieces of a pattern, and answers whether it is a row of letters and gaps.
pub(crate) fn add_pieces(
    pattern: &Pattern<Letter>,
    sets: &GapSets,
    pieces: &mut Vec<Piece>,
) -> Result<bool, Memory>
    ensures { IfOk result (λ b. b ≡ true → IsAppended sets.now (form pattern.now) pieces.old.items pieces.new.items) }
{
    match pattern {
        Pattern::Letter(letter) => add_piece(letter_piece(letter), pieces),
        Pattern::Dot(a, b) => {
            if !add_pieces(a, sets, pieces)? {
                return Ok(false);
            }
            add_pieces(b, sets, pieces)
        }
        Pattern::Repeat { body, least, most } => {
            add_piece(pattern_gap(body, *least, *most, sets), pieces)
        }
        _ => Ok(false),
    }
}
