// The cells of a state.
ghost use Rattle.std.specs.Prelude.{◌≡◌, ◌+◌, ◌-◌, ◌≤◌, ◌^◌, ◌<◌, [], ◌∷◌, ◌++◌, length, take, replicate, slice_set, OnOk};
ghost use Rattle.c_meaning.specs.Steps.{cleared};

use containers::Vector;
use std::alloc::AllocError;
use std::mem::replace;

/// Takes all cells out.
fn take_out(cells: &mut Vector<u64>) -> Vec<u64>
    ensures { result.items ≡ cells.old }
{
    let none = Vector::new(cells.allocator());
    replace(cells, none).into_vec()
}

/// Puts a value into a cell, if it is there.
pub(crate) fn put_value(cells: &mut Vector<u64>, at: usize, value: u64)
    ensures { cells.new ≡ slice_set cells.old at value }
{
    let mut items = take_out(cells);
    if at < items.len() {
        items[at] = value;
    }
    *cells = Vector::from_vec(items);
}

/// Sets so many cells, from a place on, to 0.
pub(crate) fn put_zeros(cells: &mut Vector<u64>, first: usize, count: usize)
    requires { first + count ≤ length cells.old }
    ensures { cells.new ≡ cleared cells.old first count }
{
    let mut items = take_out(cells);
    items[first..first + count].fill(0);
    *cells = Vector::from_vec(items);
}

/// Removes all cells but the first ones, so many.
pub(crate) fn keep_first(cells: &mut Vector<u64>, count: usize)
    ensures { cells.new ≡ take count cells.old }
{
    let mut items = take_out(cells);
    items.truncate(count);
    *cells = Vector::from_vec(items);
}

/// Adds the cells of a new frame: the result, the words, and zeros, so many in all.
pub(crate) fn push_frame(
    cells: &mut Vector<u64>,
    words: &[u64],
    count: u32,
) -> Result<(), AllocError>
    requires { length words.now < 2 ^ 63 }
    ensures { OnOk result (cells.new ≡ cells.old ++ 0 ∷ (words.now ++ replicate (count - (length words.now + 1)) 0)) }
{
    let mut items = take_out(cells);
    items.push(0)?;
    items.extend_from_slice(words)?;
    let zeros = (count as usize).saturating_sub(words.len() + 1);
    let all = items.len() + zeros;
    items.resize(all, 0)?;
    *cells = Vector::from_vec(items);
    Ok(())
}
