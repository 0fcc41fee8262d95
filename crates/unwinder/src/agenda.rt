// The agenda: for each place the ways into it that wait.
ghost use Rattle.std.specs.Prelude.{◌≡◌, ℕ, ◌<◌, ◌∷◌, ◌++◌, [], List, OnOk, Some, length, slice_get, slice_set};
ghost use Rattle.cfa.specs.Each.{Each};
ghost use Rattle.unwinder.specs.declared.arrival.Arrival.{Arrival as OneArrival};
ghost use Rattle.unwinder.specs.Putting.{PutCounts, PutFrom};

use crate::arrival::Arrival;
use containers::Vector;
use std::alloc::{AllocError, Global};
use std::mem;
use unwinder_reach::reached::Step;

/// The ways that wait at a place, where none waits any longer.
pub(crate) fn row_at(
    alloc: Global,
    agenda: &mut Vec<Vector<Arrival>>,
    place: usize,
) -> Vector<Arrival>
    requires { place < length agenda.old.items }
    ensures row { slice_get agenda.old.items place ≡ Some result }
    ensures left { agenda.new.items ≡ slice_set agenda.old.items place [] }
{
    mem::replace(&mut agenda[place], Vector::new(alloc))
}

/// Puts an arrival behind those that wait at a place.
fn put(
    alloc: Global,
    agenda: &mut Vec<Vector<Arrival>>,
    place: usize,
    arrival: Arrival,
) -> Result<(), AllocError>
    requires { place < length agenda.old.items }
    ensures { OnOk result ((row : List OneArrival) → slice_get agenda.old.items place ≡ Some row → agenda.new.items ≡ slice_set agenda.old.items place (row ++ arrival ∷ [])) }
{
    let mut row = row_at(alloc, agenda, place);
    row.push(arrival)?;
    agenda[place] = row;
    Ok(())
}

/// Puts the arrivals of steps behind those that wait at the places to which these lead.
pub(crate) fn put_all(
    alloc: Global,
    agenda: &mut Vec<Vector<Arrival>>,
    steps: &[Step],
    onward: Vector<Arrival>,
) -> Result<(), AllocError>
    requires same { length onward ≡ length steps.now }
    requires places { Each steps.now (λ k s. s.to < length agenda.old.items) }
    ensures put { OnOk result (PutFrom agenda.old.items agenda.new.items steps.now onward 0) }
    ensures counts { OnOk result (PutCounts agenda.old.items agenda.new.items steps.now onward 0) }
{
    let mut left = onward;
    while let Some(arrival) = left.pop() {
        let place = steps[left.len()].to as usize;
        put(alloc, agenda, place, arrival)?;
    }
    Ok(())
}
