ghost use Rattle.std.specs.Prelude.{◌≡◌, ◌+◌, ◌≤◌, IfOk, OnErr, IsTrue, All, length};
ghost use Rattle.circuit.specs.Truth.{World, Extends, HasRoom};
ghost use Rattle.automata.specs.Guards.{IsGuard};
ghost use Rattle.automata.specs.Passing.{Passed};
ghost use Rattle.automata.specs.Reach.{numbered, told};
ghost use Rattle.automata.specs.Tree.{Sized, Below, leaves};
ghost use Rattle.automata.specs.Values.{pass_gates};
ghost use Rattle.automata.specs.Views.{view};

use crate::enter::enter;
use crate::guard::Guard;
use crate::idle::is_idle_part;
use crate::leaf::pass_leaf;
use crate::meaning::StepMeaning;
use crate::node::Node;
use circuit::{Memory, Truth};
use patterns::Letter;

/// The step over a part: where a match that may begin where the bit says ends at the newest state, and the new marks.
///
/// A part in which no match is alive and none may begin is passed over. Whether one is alive is seen first at the leaf that is
/// most likely to have one, so that a long row of parts isn't looked through again for each of them.
#[tactic(auto, using(crate::proofs::Passes::walk_laws), unfolding(crate::specs::Views::view))]
pub fn pass<T: Truth, S: StepMeaning<T>>(
    truth: &mut T,
    node: &Node,
    letters: &[Letter],
    step: &S,
    guard: Guard<T::Bit>,
    begin: T::Bit,
    likely: usize,
    marks: &mut [T::Bit],
) -> Result<T::Bit, Memory>
    requires sized { Sized (view node.now) }
    requires letters { Below (length letters.now) (view node.now) }
    requires marks { length marks.old ≡ leaves (view node.now) }
    requires mark_bits { All (T.is_bit truth.old) marks.old }
    requires fits { S.fits truth.old step.now }
    requires guard { IsGuard T.is_bit T.holds truth.old guard }
    requires begin { T.is_bit truth.old begin }
    requires room { HasRoom T.counts_wires (T.wires truth.old + pass_gates (view node.now)) }
    ensures older { Extends T.is_bit T.holds truth.old truth.new }
    ensures grown { T.grows_to truth.old truth.new }
    ensures used { T.wires truth.new ≤ T.wires truth.old + pass_gates (view node.now) }
    ensures passed { IfOk result (λ end. Passed T.is_bit T.holds truth.old truth.new (λ w. numbered letters.now (told S.edge_tells S.state_tells truth.old step.now w)) (view node.now) guard.taken begin marks.old end marks.new) }
    ensures memory { OnErr result (IsTrue T.may_lack_memory) }
{
    if truth.is_known_no(begin) {
        if is_idle_part(truth, likely, marks) {
            return Ok(begin);
        }
    }
    match node {
        Node::Nothing => Ok(truth.no()),
        Node::Empty => Ok(begin),
        Node::Leaf(number) => {
            let letter = &letters[*number as usize];
            let (end, mark) = pass_leaf(truth, letter, step, guard, begin, marks[0])?;
            marks[0] = mark;
            Ok(end)
        }
        Node::Dot {
            leaves,
            left,
            right,
        } => {
            let (left_marks, right_marks) = marks.split_at_mut(*leaves);
            let middle = pass(truth, left, letters, step, guard, begin, likely, left_marks)?;
            let likely = likely.saturating_sub(*leaves);
            pass(
                truth,
                right,
                letters,
                step,
                guard,
                middle,
                likely,
                right_marks,
            )
        }
        Node::Either {
            leaves,
            left,
            right,
        } => {
            let (left_marks, right_marks) = marks.split_at_mut(*leaves);
            let first = pass(truth, left, letters, step, guard, begin, likely, left_marks)?;
            let likely = likely.saturating_sub(*leaves);
            let second = pass(
                truth,
                right,
                letters,
                step,
                guard,
                begin,
                likely,
                right_marks,
            )?;
            truth.or(first, second)
        }
        Node::Many(body) => {
            let ended = pass(truth, body, letters, step, guard, begin, likely, marks)?;
            enter(truth, body, letters, step, guard.taken, ended, marks)?;
            truth.or(begin, ended)
        }
        Node::Maybe(body) => {
            let ended = pass(truth, body, letters, step, guard, begin, likely, marks)?;
            truth.or(begin, ended)
        }
    }
}
