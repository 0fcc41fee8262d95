ghost use Rattle.std.specs.Prelude.{◌≡◌, ◌&&◌, ◌||◌, ◌+◌, ◌≤◌, if◌then◌else◌, IfOk, OnOk, OnErr, IsTrue};
ghost use Rattle.circuit.specs.Truth.{World, Extends, HasRoom};
ghost use Rattle.automata.specs.Guards.{IsGuard};

use crate::guard::{Guard, choose};
use crate::meaning::StepMeaning;
use circuit::{Memory, Truth};
use patterns::Letter;

/// Where a match of a letter over the step's edge has just ended. The letter isn't asked where none may have begun.
fn ended<T: Truth, S: StepMeaning<T>>(truth: &T, letter: &Letter, step: &S, mark: T::Bit) -> T::Bit
    requires mark { T.is_bit truth.now mark }
    ensures bit { T.is_bit truth.now result }
    ensures value { (w : World) → T.holds truth.now result w ≡ (T.holds truth.now mark w && S.edge_tells step.now letter.now) }
{
    if truth.is_known_no(mark) {
        return mark;
    }
    if step.edge(letter) { mark } else { truth.no() }
}

/// Where a match of a letter at the newest state alone ends. The letter isn't asked where none may begin.
pub fn passes<T: Truth, S: StepMeaning<T>>(
    truth: &mut T,
    letter: &Letter,
    step: &S,
    begin: T::Bit,
) -> Result<T::Bit, Memory>
    requires begin { T.is_bit truth.old begin }
    requires fits { S.fits truth.old step.now }
    requires room { HasRoom T.counts_wires (T.wires truth.old + 1) }
    ensures older { Extends T.is_bit T.holds truth.old truth.new }
    ensures grown { T.grows_to truth.old truth.new }
    ensures used { T.wires truth.new ≤ T.wires truth.old + 1 }
    ensures bit { IfOk result (λ c. T.is_bit truth.new c) }
    ensures value { IfOk result (λ c. (w : World) → T.holds truth.new c w ≡ (T.holds truth.old begin w && S.state_tells truth.old step.now letter.now w)) }
    ensures memory { OnErr result (IsTrue T.may_lack_memory) }
{
    if truth.is_known_no(begin) {
        return Ok(begin);
    }
    let state = step.state(truth, letter)?;
    truth.and(begin, state)
}

/// The step over one leaf: where a match ends, and the new mark.
pub fn pass_leaf<T: Truth, S: StepMeaning<T>>(
    truth: &mut T,
    letter: &Letter,
    step: &S,
    guard: Guard<T::Bit>,
    begin: T::Bit,
    mark: T::Bit,
) -> Result<(T::Bit, T::Bit), Memory>
    requires guard { IsGuard T.is_bit T.holds truth.old guard }
    requires begin { T.is_bit truth.old begin }
    requires mark { T.is_bit truth.old mark }
    requires fits { S.fits truth.old step.now }
    requires room { HasRoom T.counts_wires (T.wires truth.old + 5) }
    ensures older { Extends T.is_bit T.holds truth.old truth.new }
    ensures grown { T.grows_to truth.old truth.new }
    ensures used { T.wires truth.new ≤ T.wires truth.old + 5 }
    ensures end_bit { IfOk result (λ p. T.is_bit truth.new p.0) }
    ensures mark_bit { IfOk result (λ p. T.is_bit truth.new p.1) }
    ensures end_is { IfOk result (λ p. (w : World) → T.holds truth.new p.0 w ≡ ((T.holds truth.old mark w && S.edge_tells step.now letter.now) || (T.holds truth.old begin w && S.state_tells truth.old step.now letter.now w))) }
    ensures mark_is { IfOk result (λ p. (w : World) → T.holds truth.new p.1 w ≡ (if T.holds truth.old guard.taken w then T.holds truth.old begin w else T.holds truth.old mark w)) }
    ensures memory { OnErr result (IsTrue T.may_lack_memory) }
{
    let over = ended(truth, letter, step, mark);
    let alone = passes(truth, letter, step, begin)?;
    let end = truth.or(over, alone)?;
    let mark = choose(truth, guard, begin, mark)?;
    Ok((end, mark))
}

/// One more beginning at one leaf: where a match at the newest state alone ends, and the new mark.
pub fn enter_leaf<T: Truth, S: StepMeaning<T>>(
    truth: &mut T,
    letter: &Letter,
    step: &S,
    guard: T::Bit,
    begin: T::Bit,
    mark: T::Bit,
) -> Result<(T::Bit, T::Bit), Memory>
    requires guard { T.is_bit truth.old guard }
    requires begin { T.is_bit truth.old begin }
    requires mark { T.is_bit truth.old mark }
    requires fits { S.fits truth.old step.now }
    requires room { HasRoom T.counts_wires (T.wires truth.old + 3) }
    ensures older { Extends T.is_bit T.holds truth.old truth.new }
    ensures grown { T.grows_to truth.old truth.new }
    ensures used { T.wires truth.new ≤ T.wires truth.old + 3 }
    ensures end_bit { IfOk result (λ p. T.is_bit truth.new p.0) }
    ensures mark_bit { IfOk result (λ p. T.is_bit truth.new p.1) }
    ensures end_is { IfOk result (λ p. (w : World) → T.holds truth.new p.0 w ≡ (T.holds truth.old begin w && S.state_tells truth.old step.now letter.now w)) }
    ensures mark_is { IfOk result (λ p. (w : World) → T.holds truth.new p.1 w ≡ (T.holds truth.old mark w || (T.holds truth.old guard w && T.holds truth.old begin w))) }
    ensures memory { OnErr result (IsTrue T.may_lack_memory) }
{
    let end = passes(truth, letter, step, begin)?;
    let taken = truth.and(guard, begin)?;
    let mark = truth.or(mark, taken)?;
    Ok((end, mark))
}
