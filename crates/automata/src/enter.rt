ghost use Rattle.std.specs.Prelude.{◌≡◌, ◌+◌, ◌≤◌, IfOk, OnErr, IsTrue, All, length};
ghost use Rattle.circuit.specs.Truth.{World, Extends, HasRoom};
ghost use Rattle.automata.specs.Passing.{Entered};
ghost use Rattle.automata.specs.Reach.{numbered, told};
ghost use Rattle.automata.specs.Tree.{Sized, Below, leaves};
ghost use Rattle.automata.specs.Values.{enter_gates};
ghost use Rattle.automata.specs.Views.{view};

use crate::leaf::enter_leaf;
use crate::meaning::StepMeaning;
use crate::node::Node;
use circuit::{Memory, Truth};
use patterns::Letter;

/// One more beginning of a part at the newest state: where it matches that state alone, and the new marks.
#[tactic(auto, using(crate::proofs::Passes::walk_laws), unfolding(crate::specs::Views::view))]
pub fn enter<T: Truth, S: StepMeaning<T>>(
    truth: &mut T,
    node: &Node,
    letters: &[Letter],
    step: &S,
    guard: T::Bit,
    begin: T::Bit,
    marks: &mut [T::Bit],
) -> Result<T::Bit, Memory>
    requires sized { Sized (view node.now) }
    requires letters { Below (length letters.now) (view node.now) }
    requires marks { length marks.old ≡ leaves (view node.now) }
    requires mark_bits { All (T.is_bit truth.old) marks.old }
    requires fits { S.fits truth.old step.now }
    requires guard { T.is_bit truth.old guard }
    requires begin { T.is_bit truth.old begin }
    requires room { HasRoom T.counts_wires (T.wires truth.old + enter_gates (view node.now)) }
    ensures older { Extends T.is_bit T.holds truth.old truth.new }
    ensures grown { T.grows_to truth.old truth.new }
    ensures used { T.wires truth.new ≤ T.wires truth.old + enter_gates (view node.now) }
    ensures entered { IfOk result (λ end. Entered T.is_bit T.holds truth.old truth.new (λ w. numbered letters.now (told S.edge_tells S.state_tells truth.old step.now w)) (view node.now) guard begin marks.old end marks.new) }
    ensures memory { OnErr result (IsTrue T.may_lack_memory) }
{
    if truth.is_known_no(begin) {
        return Ok(begin);
    }
    match node {
        Node::Nothing => Ok(truth.no()),
        Node::Empty => Ok(begin),
        Node::Leaf(number) => {
            let letter = &letters[*number as usize];
            let (end, mark) = enter_leaf(truth, letter, step, guard, begin, marks[0])?;
            marks[0] = mark;
            Ok(end)
        }
        Node::Dot {
            leaves,
            left,
            right,
        } => {
            let (left_marks, right_marks) = marks.split_at_mut(*leaves);
            let middle = enter(truth, left, letters, step, guard, begin, left_marks)?;
            enter(truth, right, letters, step, guard, middle, right_marks)
        }
        Node::Either {
            leaves,
            left,
            right,
        } => {
            let (left_marks, right_marks) = marks.split_at_mut(*leaves);
            let first = enter(truth, left, letters, step, guard, begin, left_marks)?;
            let second = enter(truth, right, letters, step, guard, begin, right_marks)?;
            truth.or(first, second)
        }
        Node::Many(body) => {
            enter(truth, body, letters, step, guard, begin, marks)?;
            Ok(begin)
        }
        Node::Maybe(body) => {
            enter(truth, body, letters, step, guard, begin, marks)?;
            Ok(begin)
        }
    }
}
