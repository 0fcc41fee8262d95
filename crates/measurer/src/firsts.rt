// The first runs that hit goals.
ghost use Rattle.std.specs.Prelude.{◌≡◌, ◌∷◌, [], ◌++◌, ◌+◌, ◌<◌, ◌≤◌, ℕ, All, IfOk, OnOk, OnErr, length, slice_index};
ghost use Rattle.measurer.specs.Firsts.{first_hit, has_number, or_none};
ghost use Rattle.measurer.specs.Noted.{noted};

use containers::Vector;
use fq_core::Memory;

/// Makes a table longer, so that it has a place for each of these numbers.
fn lengthen(table: &mut Vec<u32>, numbers: &[u32]) -> Result<(), Memory>
    ensures same { (k : ℕ) → slice_index table.new.items k ≡ slice_index table.old.items k }
    ensures room { OnOk result (All (λ number. number < length table.new.items) numbers.now) }
{
    for number in numbers {
        lengthen_to(table, *number as usize)?;
    }
    Ok(())
}

/// Makes a table longer, so that it has this place.
fn lengthen_to(table: &mut Vec<u32>, place: usize) -> Result<(), Memory>
    ensures same { (k : ℕ) → slice_index table.new.items k ≡ slice_index table.old.items k }
    ensures longer { length table.old.items ≤ length table.new.items }
    ensures room { OnOk result (place < length table.new.items) }
{
    while table.len() <= place {
        table.push(0)?;
    }
    Ok(())
}

/// Notes the number of a run at each of these places where there is none.
fn note_at(table: &mut Vec<u32>, places: &[u32], number: u32)
    requires number { 0 < number }
    requires room { All (λ place. place < length table.old.items) places.now }
    ensures { (k : ℕ) → or_none (slice_index table.new.items k) ≡ noted (has_number k places.now) number (or_none (slice_index table.old.items k)) }
{
    for place in places {
        let at = *place as usize;
        if table[at] == 0 {
            table[at] = number;
        }
    }
}

/// Adds the hits of one more run to those of earlier ones, and to the table of first runs.
pub(crate) fn note(
    hits: &mut Vector<Vector<u32>>,
    firsts: &mut Vec<u32>,
    last: Vec<u32>,
) -> Result<(), Memory>
    requires { (goal : ℕ) → or_none (slice_index firsts.old.items goal) ≡ first_hit hits.old goal }
    ensures firsts { (goal : ℕ) → or_none (slice_index firsts.new.items goal) ≡ first_hit hits.new goal }
    ensures ok { OnOk result (hits.new ≡ hits.old ++ last.items ∷ []) }
    ensures err { OnErr result (hits.new ≡ hits.old) }
{
    if hits.len() >= u32::MAX as usize {
        return Err(Memory);
    }
    let number = hits.len() as u32 + 1;
    lengthen(firsts, &last)?;
    let last = Vector::from_vec(last);
    hits.push(last)?;
    if let Some(added) = hits.as_slice().last() {
        note_at(firsts, added, number);
    }
    Ok(())
}
