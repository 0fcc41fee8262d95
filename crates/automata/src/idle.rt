ghost use Rattle.std.specs.Prelude.{◌≡◌, All, IsNone, IsTrue};
ghost use Rattle.automata.specs.Passing.{Silent};

use circuit::Truth;

/// Whether it is known that no leaf may begin, in any world. A no says nothing.
pub fn is_idle<T: Truth>(truth: &T, marks: &[T::Bit]) -> bool
    requires { All (T.is_bit truth.now) marks.now }
    ensures { IsTrue result → Silent T.holds truth.now marks.now }
{
    for mark in marks {
        if !truth.is_known_no(*mark) {
            return false;
        }
    }
    true
}

/// Whether it is known that no leaf of a part may begin. The leaf that is most likely to is looked at first, where the part
/// has it.
pub fn is_idle_part<T: Truth>(truth: &T, likely: usize, marks: &[T::Bit]) -> bool
    requires { All (T.is_bit truth.now) marks.now }
    ensures { IsTrue result → Silent T.holds truth.now marks.now }
{
    if likely < marks.len() {
        if !truth.is_known_no(marks[likely]) {
            return false;
        }
    }
    is_idle(truth, marks)
}

/// The first leaf from this one on that may begin, as far as is known.
fn live_from<T: Truth>(truth: &T, from: usize, marks: &[T::Bit]) -> Option<usize>
    requires { All (T.is_bit truth.now) marks.now }
{
    for leaf in from..marks.len() {
        if !truth.is_known_no(marks[leaf]) {
            return Some(leaf);
        }
    }
    None
}

/// A leaf from which on to look for one that may begin, or nothing where it is known that none may, in any world.
///
/// The look begins at a leaf, so one that was found before is found at once. Where the automaton rests no mark is looked at.
pub fn live_leaf<T: Truth>(truth: &T, rests: bool, from: usize, marks: &[T::Bit]) -> Option<usize>
    requires bits { All (T.is_bit truth.now) marks.now }
    requires rests { IsTrue rests → Silent T.holds truth.now marks.now }
    ensures { IsNone result → Silent T.holds truth.now marks.now }
{
    if rests {
        return None;
    }
    match live_from(truth, from, marks) {
        Some(leaf) => Some(leaf),
        None => { if is_idle(truth, marks) { None } else { Some(0) } }
    }
}
