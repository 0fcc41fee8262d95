// Lessons over their circuit.
ghost use Rattle.search_lemmas.specs.Store.{AllHold};

use circuit::Circuit;
use cnf::Clause;

/// A circuit, and lessons that hold in every world of it.
#[derive(Clone, Copy)]
pub(crate) struct Held<'a> {
    pub(crate) circuit: &'a Circuit,
    pub(crate) lessons: &'a [Clause],
    ghost hold: { AllHold circuit.now lessons.now },
}
