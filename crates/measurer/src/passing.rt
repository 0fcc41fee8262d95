// The passing clause.
ghost use Rattle.std.specs.Prelude.{◌≡◌, ◌↔◌, Option, true, IfOk};
ghost use Rattle.goals.specs.declared.plan.PassingPattern.{PassingPattern};
ghost use Rattle.measurer_hits.specs.hits.Hits.{MeetsPassing};
ghost use Rattle.measurer.specs.Measured.{IsPassingAutomaton};

use automata::Nfa;
use fq_core::Memory;
use measurer_hits::run_match::{RunPath, has_match};
use patterns::Letter;
use std::alloc::Global;

/// Whether a path meets the passing clause, of which this is the automaton where there is one.
pub(crate) fn meets_passing(
    alloc: Global,
    passing: &Option<Nfa<Letter>>,
    path: &RunPath,
) -> Result<bool, Memory>
    ensures { (clause : Option PassingPattern) → IsPassingAutomaton clause passing.now → IfOk result (λ b. (b ≡ true) ↔ MeetsPassing clause path.now) }
{
    match passing {
        None => Ok(true),
        Some(automaton) => Ok(has_match(alloc, automaton, path)?),
    }
}
