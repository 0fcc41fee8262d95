//! Laws of the definitions in specs/. Each function does nothing: its contract is the law.
ghost use Rattle.std.specs.Prelude.{◌≡◌, List};
ghost use Rattle.circuit.specs.Truth.{World, Extends};
ghost use Rattle.patterns.specs.Match.{Step};
ghost use Rattle.patterns.specs.declared.letter.Letter.{Letter};
ghost use Rattle.automata.specs.declared.nfa.Nfa.{Nfa};
ghost use Rattle.automata.specs.declared.reach_bits.ReachBits.{ReachBits};
ghost use Rattle.automata.specs.Standing.{IsReach, IsSpent, Stands};

use circuit::Truth;

/// A reach is one of its automaton and truth still after other gates, and stands for the same paths.
#[tactic(auto, using(crate::specs::Still::still_reach, crate::specs::Still::still_stands))]
pub fn reaches_outlast_gates<T: Truth>()
    ensures reach { (old new : T) (nfa : Nfa Letter) (reach : ReachBits T.Bit) → Extends T.is_bit T.holds old new → IsReach T.is_bit T.holds T.may_lack_memory old nfa reach → IsReach T.is_bit T.holds T.may_lack_memory new nfa reach }
    ensures stands { (old new : T) (nfa : Nfa Letter) (reach : ReachBits T.Bit) (path : World → List (Step Letter)) → Extends T.is_bit T.holds old new → IsReach T.is_bit T.holds T.may_lack_memory old nfa reach → ¬ IsSpent reach
        → Stands T.holds old nfa reach path → Stands T.holds new nfa reach path }
{}
