// What inputs hit.
ghost use Rattle.std.specs.Prelude.{◌<◌, ◌^◌, length};

use containers::Vector;

/// The goals that each input hits, of inputs so few that 32 bits number them from 1.
#[derive(Clone, Copy)]
pub struct HitLists<'a> {
    pub lists: &'a [Vector<u32>],
    ghost few: { length lists.now < 2 ^ 32 },
}
