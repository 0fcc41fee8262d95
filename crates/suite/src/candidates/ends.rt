// Ends of the ranges of kinds at one place of an input.
use c_values::Kind;

/// The greatest number of a kind.
fn greatest(kind: Kind) -> u64 {
    let unsigned = match kind.width {
        8 => 0xff,
        16 => 0xffff,
        32 => 0xffff_ffff,
        _ => u64::MAX,
    };
    if kind.signed { unsigned / 2 } else { unsigned }
}

/// The least number of a kind, as a pattern of 64 bits.
fn least(kind: Kind) -> u64 {
    if kind.signed {
        0u64.wrapping_sub(greatest(kind)).wrapping_sub(1)
    } else {
        0
    }
}

/// An end of a kind's range, or the number beside it, one in.
#[derive(Clone, Copy)]
enum End {
    Greatest,
    Least,
    BelowGreatest,
    AboveLeast,
}

impl End {
    /// The number that a kind has there.
    fn of(self, kind: Kind) -> u64 {
        match self {
            End::Greatest => greatest(kind),
            End::Least => least(kind),
            End::BelowGreatest => greatest(kind).wrapping_sub(1),
            End::AboveLeast => least(kind).wrapping_add(1),
        }
    }
}

/// What a lone place has, which has no others.
const LONE: [End; 4] = [
    End::Greatest,
    End::Least,
    End::BelowGreatest,
    End::AboveLeast,
];

/// The rounds: what one place has, each in turn, and what all others have.
const ROUNDS: [(End, u64); 12] = [
    (End::Greatest, 0),
    (End::Least, 0),
    (End::Greatest, 1),
    (End::Least, u64::MAX),
    (End::Least, 1),
    (End::Greatest, u64::MAX),
    (End::BelowGreatest, 1),
    (End::AboveLeast, u64::MAX),
    (End::BelowGreatest, 2),
    (End::AboveLeast, u64::MAX - 1),
    (End::Greatest, 2),
    (End::Least, 2),
];

/// The word for a place, of this kind and of so many places, of an input in which one place has an end of its kind's range and
/// the others a small number; `None` past the last such input.
pub(crate) fn word_beside_end(index: u64, slot: u64, slots: u64, kind: Kind) -> Option<u64> {
    if slots < 2 {
        let end = LONE.get(index as usize)?;
        return Some(end.of(kind));
    }
    let (end, others) = ROUNDS.get((index / slots) as usize)?;
    if index % slots == slot {
        Some(end.of(kind))
    } else {
        Some(*others)
    }
}
