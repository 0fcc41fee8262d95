// Sets of literals as tables of marks.
ghost use Rattle.std.specs.Prelude.{◌≡◌, ℕ, ℤ, false, not, ◌&&◌, ◌||◌, IsTrue, length, slice_index_or};
ghost use Rattle.std.specs.List.{list_all, list_any};
ghost use Rattle.std.specs.Ordering.{int_eq};
ghost use Rattle.cnf.specs.Clauses.{has_literal};
ghost use Rattle.cnf.specs.literal_marks.Marks.{has_place, has_places, marked};

use crate::literal_marks::places::{Places, place};

/// Takes all marks away.
pub fn clear(marks: &mut [bool])
    ensures { (k : ℕ) → slice_index_or marks.new k false ≡ false }
{
    for mark in marks.iter_mut() {
        *mark = false;
    }
}

/// Whether a literal is marked.
pub fn is_marked(places: &Places, marks: &[bool], literal: i32) -> bool
    ensures { result ≡ marked places.now marks.now literal }
{
    match place(places, literal) {
        Some(place) => place < marks.len() && marks[place],
        None => false,
    }
}

/// Whether all these literals are marked.
pub fn all_marked(places: &Places, marks: &[bool], literals: &[i32]) -> bool
    ensures { result ≡ list_all (marked places.now marks.now) literals.now }
{
    literals
        .iter()
        .all(|literal| is_marked(places, marks, *literal))
}

/// Whether one of these literals is marked.
pub fn any_marked(places: &Places, marks: &[bool], literals: &[i32]) -> bool
    ensures { result ≡ list_any (marked places.now marks.now) literals.now }
{
    literals
        .iter()
        .any(|literal| is_marked(places, marks, *literal))
}

/// Marks a literal.
pub fn mark(places: &Places, marks: &mut [bool], literal: i32)
    requires { IsTrue (has_place places.now (length marks.old) literal) }
    ensures { (x : ℤ) → marked places.now marks.new x ≡ (marked places.now marks.old x || int_eq literal x) }
{
    if let Some(place) = place(places, literal) {
        marks[place] = true;
    }
}

/// Takes the mark of a literal away.
pub fn unmark(places: &Places, marks: &mut [bool], literal: i32)
    ensures { (x : ℤ) → marked places.now marks.new x ≡ (marked places.now marks.old x && not (int_eq x literal)) }
{
    if let Some(place) = place(places, literal)
        && place < marks.len()
    {
        marks[place] = false;
    }
}

/// Marks literals.
pub fn mark_all(places: &Places, marks: &mut [bool], literals: &[i32])
    requires { IsTrue (has_places places.now (length marks.old) literals.now) }
    ensures { (x : ℤ) → marked places.now marks.new x ≡ (marked places.now marks.old x || has_literal literals.now x) }
{
    for literal in literals {
        mark(places, marks, *literal);
    }
}

// Marks a literal, unless it is one that is skipped, and answers whether it is.
fn mark_other(places: &Places, marks: &mut [bool], literal: i32, skipped: i32) -> bool
    requires { IsTrue (has_place places.now (length marks.old) literal) }
    ensures found { result ≡ int_eq literal skipped }
    ensures marks { (x : ℤ) → marked places.now marks.new x ≡ (marked places.now marks.old x || (int_eq literal x && not (int_eq x skipped))) }
{
    if literal == skipped {
        return true;
    }
    mark(places, marks, literal);
    false
}

/// Marks all literals but one, and answers whether that one is among them.
pub fn mark_others(places: &Places, marks: &mut [bool], literals: &[i32], skipped: i32) -> bool
    requires { IsTrue (has_places places.now (length marks.old) literals.now) }
    ensures found { result ≡ has_literal literals.now skipped }
    ensures marks { (x : ℤ) → marked places.now marks.new x ≡ (marked places.now marks.old x || (has_literal literals.now x && not (int_eq x skipped))) }
{
    let mut found = false;
    for literal in literals {
        if mark_other(places, marks, *literal, skipped) {
            found = true;
        }
    }
    found
}

/// Takes the marks of literals away.
pub fn unmark_all(places: &Places, marks: &mut [bool], literals: &[i32])
    ensures { (x : ℤ) → marked places.now marks.new x ≡ (marked places.now marks.old x && not (has_literal literals.now x)) }
{
    for literal in literals {
        unmark(places, marks, *literal);
    }
}
