ghost use Rattle.std.specs.Prelude.{◌≡◌, ◌+◌, ◌≤◌, ◌↔◌, ◌∷◌, ◌++◌, [], List, Bool, true, false, length, All, IfOk, OnOk, OnErr, IsErr, IsNone, IsTrue};
ghost use Rattle.patterns.specs.Match.{Step, Form};
ghost use Rattle.patterns.specs.declared.letter.Letter.{Letter};
ghost use Rattle.circuit.specs.Truth.{World, Extends, HasRoom};
ghost use Rattle.automata.specs.Reach.{told, steps_after};
ghost use Rattle.automata.specs.Standing.{IsOf, IsReach, IsSpent, gates_of, Stands, HasMatch};

use crate::guard::Guard;
use crate::meaning::StepMeaning;
use crate::nfa::Nfa;
use crate::reach_bits::ReachBits;
use crate::step::take_step;
use circuit::{Memory, Truth};
use patterns::Letter;
use std::alloc::Global;

/// What is known of a path so far, for one automaton and one truth.
pub type Reach<T> = ReachBits<<T as Truth>::Bit>;

/// Takes one more step, in the worlds where the guard holds. Elsewhere the reach stays as it was.
///
/// It answers [`Memory`] only where the truth's gates may, and then the reach is spent: each later call answers it too. A
/// reach over `Plain` is never spent. It uses at most 8 times the square of the pattern's letters plus 2 wires.
pub fn advance<T: Truth, S: StepMeaning<T>>(
    truth: &mut T,
    nfa: &Nfa<Letter>,
    reach: &mut Reach<T>,
    step: &S,
    guard: T::Bit,
) -> Result<(), Memory>
    requires reach { IsReach T.is_bit T.holds T.may_lack_memory truth.old nfa.now reach.old }
    requires fits { S.fits truth.old step.now }
    requires guard { T.is_bit truth.old guard }
    requires room { HasRoom T.counts_wires (T.wires truth.old + gates_of nfa.now) }
    ensures older { Extends T.is_bit T.holds truth.old truth.new }
    ensures grown { T.grows_to truth.old truth.new }
    ensures used { T.wires truth.new ≤ T.wires truth.old + gates_of nfa.now }
    ensures reach { IsReach T.is_bit T.holds T.may_lack_memory truth.new nfa.now reach.new }
    ensures stands { (path : World → List (Step Letter)) → Stands T.holds truth.old nfa.now reach.old path →
        OnOk result (Stands T.holds truth.new nfa.now reach.new (λ w. steps_after (T.holds truth.old guard w) (path w) (told S.edge_tells S.state_tells truth.old step.now w))) }
    ensures spent { OnErr result (IsSpent reach.new) }
    ensures memory { OnErr result (IsTrue T.may_lack_memory) }
    ensures stays { IsSpent reach.old → IsErr result }
{
    if reach.spent {
        return Err(Memory);
    }
    reach.spent = true;
    let skipped = truth.not(guard)?;
    let guard = Guard {
        taken: guard,
        skipped,
    };
    let begin = first_bit(truth, !nfa.first);
    let rests = is_at_rest(nfa.first, reach.live);
    let live = reach.live.unwrap_or(0);
    let (hit, live) = take_step(
        truth,
        &nfa.node,
        &nfa.letters,
        nfa.last,
        step,
        guard,
        begin,
        reach.hit,
        rests,
        live,
        &mut reach.marks,
    )?;
    reach.live = live;
    reach.hit = hit;
    reach.spent = false;
    Ok(())
}

/// Whether it is known that no match is alive and that none may begin.
fn is_at_rest(first: bool, live: Option<usize>) -> bool
    ensures idle { IsTrue result → IsNone live }
    ensures first { IsTrue result → first ≡ true }
{
    match live {
        None => first,
        Some(_) => false,
    }
}

/// The bit of a known truth value.
fn first_bit<T: Truth>(truth: &T, value: bool) -> T::Bit
    ensures bit { T.is_bit truth.now result }
    ensures value { (w : World) → T.holds truth.now result w ≡ value }
{
    if value { truth.yes() } else { truth.no() }
}

/// A bit that holds exactly where some segment of the path that the anchors allow matches. It uses no wire.
pub fn accepted<T: Truth>(
    truth: &mut T,
    nfa: &Nfa<Letter>,
    reach: &Reach<T>,
) -> Result<T::Bit, Memory>
    requires reach { IsReach T.is_bit T.holds T.may_lack_memory truth.old nfa.now reach.now }
    ensures same { truth.new ≡ truth.old }
    ensures bit { IfOk result (λ b. T.is_bit truth.new b) }
    ensures value { (pattern : Form Letter) (first last : Bool) (path : World → List (Step Letter)) → IsOf nfa.now pattern first last → Stands T.holds truth.old nfa.now reach.now path →
        IfOk result (λ b. (w : World) → (T.holds truth.new b w ≡ true) ↔ HasMatch pattern first last (path w)) }
    ensures spent { IsErr result ↔ IsSpent reach.now }
    ensures memory { OnErr result (IsTrue T.may_lack_memory) }
{
    let _ = truth;
    let _ = nfa;
    if reach.spent {
        return Err(Memory);
    }
    Ok(reach.hit)
}

/// Whether some match is known that stays one however the path goes on, in every world. A no says nothing.
///
/// A reach of which this is known need not be advanced any more.
pub fn is_settled<T: Truth>(truth: &T, nfa: &Nfa<Letter>, reach: &Reach<T>) -> bool
    requires reach { IsReach T.is_bit T.holds T.may_lack_memory truth.now nfa.now reach.now }
    ensures { IsTrue result → (pattern : Form Letter) (first last : Bool) (path : World → List (Step Letter)) → IsOf nfa.now pattern first last → Stands T.holds truth.now nfa.now reach.now path →
        (w : World) (more : List (Step Letter)) → HasMatch pattern first last (path w ++ more) }
{
    if nfa.last {
        return false;
    }
    if reach.spent {
        return false;
    }
    truth.is_known_yes(reach.hit)
}

/// So many equal values.
fn filled<B: Copy>(alloc: Global, value: B, count: usize) -> Result<Vec<B>, Memory>
    ensures length { IfOk result (λ v. length v.items ≡ count) }
    ensures value { IfOk result (λ v. All (λ b. b ≡ value) v.items) }
{
    let mut all = Vec::new(alloc);
    for _ in 0..count {
        all.push(value)?;
    }
    Ok(all)
}

/// The reach of the path of the first state alone, whose edge is that of no segment.
pub fn begin<T: Truth, S: StepMeaning<T>>(
    alloc: Global,
    truth: &mut T,
    nfa: &Nfa<Letter>,
    step: &S,
) -> Result<Reach<T>, Memory>
    requires fits { S.fits truth.old step.now }
    requires room { HasRoom T.counts_wires (T.wires truth.old + gates_of nfa.now) }
    ensures older { Extends T.is_bit T.holds truth.old truth.new }
    ensures grown { T.grows_to truth.old truth.new }
    ensures used { T.wires truth.new ≤ T.wires truth.old + gates_of nfa.now }
    ensures reach { IfOk result (λ r. IsReach T.is_bit T.holds T.may_lack_memory truth.new nfa.now r) }
    ensures unspent { IfOk result (λ r. ¬ IsSpent r) }
    ensures stands { IfOk result (λ r. Stands T.holds truth.new nfa.now r (λ w. told S.edge_tells S.state_tells truth.old step.now w ∷ [])) }
{
    let no = truth.no();
    let mut marks = filled(alloc, no, nfa.leaves)?;
    let yes = truth.yes();
    let guard = Guard {
        taken: yes,
        skipped: no,
    };
    let (hit, live) = take_step(
        truth,
        &nfa.node,
        &nfa.letters,
        nfa.last,
        step,
        guard,
        yes,
        no,
        false,
        0,
        &mut marks,
    )?;
    Ok(ReachBits {
        marks,
        live,
        hit,
        spent: false,
    })
}
