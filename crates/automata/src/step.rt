ghost use Rattle.std.specs.Prelude.{◌≡◌, ◌+◌, ◌≤◌, if◌then◌else◌, IfOk, OnOk, OnErr, IsNone, IsTrue, All, length, false, ℕ};
ghost use Rattle.circuit.specs.Truth.{World, Extends, HasRoom};
ghost use Rattle.automata.specs.Guards.{IsGuard};
ghost use Rattle.automata.specs.Passing.{Passed, Silent};
ghost use Rattle.automata.specs.Reach.{hit_after, ends_now, numbered, told};
ghost use Rattle.automata.specs.Tree.{Sized, Below, leaves, marks_after};
ghost use Rattle.automata.specs.Values.{at, pass_gates, step_gates};
ghost use Rattle.automata.specs.Views.{view};

use crate::guard::{Guard, choose};
use crate::idle::live_leaf;
use crate::meaning::StepMeaning;
use crate::node::Node;
use crate::pass::pass;
use circuit::{Memory, Truth};
use patterns::Letter;

/// Whether some match has been found, where the step is taken, and what was known elsewhere.
///
/// Where the path goes on after a match a step at which none ends costs no gate of a truth that folds constants.
pub fn next_hit<T: Truth>(
    truth: &mut T,
    last: bool,
    guard: Guard<T::Bit>,
    hit: T::Bit,
    end: T::Bit,
) -> Result<T::Bit, Memory>
    requires guard { IsGuard T.is_bit T.holds truth.old guard }
    requires hit { T.is_bit truth.old hit }
    requires end { T.is_bit truth.old end }
    requires room { HasRoom T.counts_wires (T.wires truth.old + 4) }
    ensures older { Extends T.is_bit T.holds truth.old truth.new }
    ensures grown { T.grows_to truth.old truth.new }
    ensures used { T.wires truth.new ≤ T.wires truth.old + 4 }
    ensures bit { IfOk result (λ c. T.is_bit truth.new c) }
    ensures value { IfOk result (λ c. (w : World) → T.holds truth.new c w ≡ (if T.holds truth.old guard.taken w then hit_after last (T.holds truth.old hit w) (T.holds truth.old end w) else T.holds truth.old hit w)) }
    ensures memory { OnErr result (IsTrue T.may_lack_memory) }
{
    if last {
        choose(truth, guard, end, hit)
    } else {
        let found = truth.and(guard.taken, end)?;
        truth.or(hit, found)
    }
}

/// The step over a whole automaton, as `pass` takes it, or none where no match is alive and none may begin.
fn pass_unless<T: Truth, S: StepMeaning<T>>(
    truth: &mut T,
    node: &Node,
    letters: &[Letter],
    step: &S,
    guard: Guard<T::Bit>,
    begin: T::Bit,
    rests: bool,
    live: usize,
    marks: &mut [T::Bit],
) -> Result<T::Bit, Memory>
    requires sized { Sized (view node.now) }
    requires letters { Below (length letters.now) (view node.now) }
    requires marks { length marks.old ≡ leaves (view node.now) }
    requires mark_bits { All (T.is_bit truth.old) marks.old }
    requires fits { S.fits truth.old step.now }
    requires guard { IsGuard T.is_bit T.holds truth.old guard }
    requires begin { T.is_bit truth.old begin }
    requires rests { IsTrue rests → Silent T.holds truth.old marks.old }
    requires never { IsTrue rests → (w : World) → T.holds truth.old begin w ≡ false }
    requires room { HasRoom T.counts_wires (T.wires truth.old + pass_gates (view node.now)) }
    ensures older { Extends T.is_bit T.holds truth.old truth.new }
    ensures grown { T.grows_to truth.old truth.new }
    ensures used { T.wires truth.new ≤ T.wires truth.old + pass_gates (view node.now) }
    ensures passed { IfOk result (λ end. Passed T.is_bit T.holds truth.old truth.new (λ w. numbered letters.now (told S.edge_tells S.state_tells truth.old step.now w)) (view node.now) guard.taken begin marks.old end marks.new) }
    ensures kept { IsTrue rests → marks.new ≡ marks.old }
    ensures memory { OnErr result (IsTrue T.may_lack_memory) }
{
    if rests {
        return Ok(begin);
    }
    pass(truth, node, letters, step, guard, begin, live, marks)
}

/// One more step, in the worlds where it is taken: the new marks, whether some match has been found, and a leaf from which on
/// to look for one that may begin, or nothing where none may.
///
/// Where no match is alive and none may begin the marks aren't looked at.
#[tactic(auto, using(crate::proofs::Passes::pass_laws))]
pub fn take_step<T: Truth, S: StepMeaning<T>>(
    truth: &mut T,
    node: &Node,
    letters: &[Letter],
    last: bool,
    step: &S,
    guard: Guard<T::Bit>,
    begin: T::Bit,
    hit: T::Bit,
    rests: bool,
    live: usize,
    marks: &mut [T::Bit],
) -> Result<(T::Bit, Option<usize>), Memory>
    requires sized { Sized (view node.now) }
    requires marks { length marks.old ≡ leaves (view node.now) }
    requires mark_bits { All (T.is_bit truth.old) marks.old }
    requires letters { Below (length letters.now) (view node.now) }
    requires fits { S.fits truth.old step.now }
    requires guard { IsGuard T.is_bit T.holds truth.old guard }
    requires begin { T.is_bit truth.old begin }
    requires hit { T.is_bit truth.old hit }
    requires rests { IsTrue rests → Silent T.holds truth.old marks.old }
    requires never { IsTrue rests → (w : World) → T.holds truth.old begin w ≡ false }
    requires room { HasRoom T.counts_wires (T.wires truth.old + step_gates (view node.now)) }
    ensures older { Extends T.is_bit T.holds truth.old truth.new }
    ensures grown { T.grows_to truth.old truth.new }
    ensures used { T.wires truth.new ≤ T.wires truth.old + step_gates (view node.now) }
    ensures bits { OnOk result (All (T.is_bit truth.new) marks.new) }
    ensures idle { IfOk result (λ p. IsNone p.1 → Silent T.holds truth.new marks.new) }
    ensures bit { IfOk result (λ p. T.is_bit truth.new p.0) }
    ensures marked { OnOk result ((w : World) → at T.holds truth.new marks.new w ≡ marks_after (numbered letters.now (told S.edge_tells S.state_tells truth.old step.now w)) (T.holds truth.old guard.taken w) (view node.now) (T.holds truth.old begin w) (at T.holds truth.old marks.old w)) }
    ensures found { IfOk result (λ p. (w : World) → T.holds truth.new p.0 w ≡ (if T.holds truth.old guard.taken w then hit_after last (T.holds truth.old hit w) (ends_now (numbered letters.now (told S.edge_tells S.state_tells truth.old step.now w)) (view node.now) (T.holds truth.old begin w) (at T.holds truth.old marks.old w)) else T.holds truth.old hit w)) }
    ensures memory { OnErr result (IsTrue T.may_lack_memory) }
{
    let end = pass_unless(truth, node, letters, step, guard, begin, rests, live, marks)?;
    let hit = next_hit(truth, last, guard, hit, end)?;
    let live = live_leaf(truth, rests, live, marks);
    Ok((hit, live))
}
