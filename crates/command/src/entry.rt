// The entry.
ghost use Rattle.command.specs.Calls.{IsEntryAs};

use crate::refusal::nowhere;
use crate::types::Automaton;
use fq_core::Fault;
use suite_problem::Entry;

/// The function of this name, where a run can begin at it.
pub fn entry_named<'a>(automaton: &'a Automaton, name: &str) -> Result<Entry<'a>, Fault>
    ensures { IsEntryAs automaton.now.graph name.now result }
{
    let Some(number) = automaton.graph.function_named(name.as_bytes()) else {
        return Err(Fault::Refused(nowhere(36)));
    };
    let function = &automaton.graph.functions()[number as usize];
    if function.arrays.len() > 0 {
        return Err(Fault::Refused(nowhere(36)));
    }
    Ok(Entry {
        graph: &automaton.graph,
        number,
        function,
    })
}
