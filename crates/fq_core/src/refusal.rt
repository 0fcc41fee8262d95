// Why an input is refused, and where.
use crate::{Memory, Name};
use std::alloc::{AllocError, AllocFailed};

/// Where in the input the cause of a refusal stands.
#[derive(Debug, Drop)]
pub enum Place {
    Nowhere,
    /// A line, from 1, of a file, by its place in the list of sources, from 0.
    Source { file: u32, line: u32 },
    /// A byte of the query, from 1.
    Query { column: u32 },
    QueryWhole,
    /// An input, from 1, or 0 for the whole file of inputs.
    InputNumber { number: u32 },
    /// The greatest number that is accepted of what was counted.
    Limit { number: u64 },
    FileName { name: Name },
    /// A line, from 1, of a certificate.
    Line { number: u32 },
}

/// A refusal of the input: a code of `code_name`'s table, and the place of its cause.
#[derive(Debug, Drop)]
pub struct Refusal {
    pub code: u16,
    pub place: Place,
}

/// Why a call gave no answer.
#[derive(Debug, Drop)]
pub enum Fault {
    Refused(Refusal),
    Memory,
}

impl From<Memory> for Fault {
    ghost use Rattle.std.specs.Prelude.{◌≡◌};
    ghost use Rattle.fq_core.specs.declared.refusal.Fault.TheVariants as fault;

    ghost from_gives = { λ _ e. e ≡ fault.Memory };

    fn from(_: Memory) -> Self {
        Fault::Memory
    }
}

impl From<AllocError> for Fault {
    ghost use Rattle.std.specs.Prelude.{◌≡◌};
    ghost use Rattle.fq_core.specs.declared.refusal.Fault.TheVariants as fault;

    ghost from_gives = { λ _ e. e ≡ fault.Memory };

    fn from(_: AllocError) -> Self {
        Fault::Memory
    }
}

impl<T: Drop> From<AllocFailed<T>> for Fault {
    ghost use Rattle.std.specs.Prelude.{◌≡◌};
    ghost use Rattle.fq_core.specs.declared.refusal.Fault.TheVariants as fault;

    ghost from_gives = { λ _ e. e ≡ fault.Memory };

    fn from(_: AllocFailed<T>) -> Self {
        Fault::Memory
    }
}
