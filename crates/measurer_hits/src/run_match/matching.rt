// Runs of automata along recorded paths.
ghost use Rattle.std.specs.Prelude.{◌≡◌, ◌↔◌, Bool, true, IfOk};
ghost use Rattle.patterns.specs.Match.{Form};
ghost use Rattle.automata.specs.Standing.{IsOf};
ghost use Rattle.patterns.specs.Segments.{HasSegment};

use crate::run_match::run_path::RunPath;
use automata::{Nfa, accepted, advance, begin, is_settled};
use circuit::Plain;
use fq_core::Memory;
use patterns::Letter;
use std::alloc::Global;

/// Whether some segment of the path that the automaton's anchors allow matches its pattern. It goes along the path once, and
/// no further than to where that is settled.
pub fn has_match(alloc: Global, automaton: &Nfa<Letter>, path: &RunPath) -> Result<bool, Memory>
    ensures { (pattern : Form Letter) (first last : Bool) → IsOf automaton.now pattern first last → IfOk result (λ b. (b ≡ true) ↔ HasSegment first last pattern path.now) }
{
    match taken(alloc, automaton, path) {
        Ok(found) => Ok(found),
        Err(_) => Err(Memory),
    }
}

/// The same, where the memory is that of gates.
fn taken(alloc: Global, automaton: &Nfa<Letter>, path: &RunPath) -> Result<bool, circuit::Memory>
    ensures { (pattern : Form Letter) (first last : Bool) → IsOf automaton.now pattern first last → IfOk result (λ b. (b ≡ true) ↔ HasSegment first last pattern path.now) }
{
    let mut truth = Plain;
    let mut reach = begin(alloc, &mut truth, automaton, &path.step(0))?;
    for at in 1..path.nodes().len() {
        if is_settled(&truth, automaton, &reach) {
            return Ok(true);
        }
        advance(&mut truth, automaton, &mut reach, &path.step(at), true)?;
    }
    accepted(&mut truth, automaton, &reach)
}
