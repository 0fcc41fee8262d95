// The ends of runs that count.

/// Which ends of a run are counted. A run that returns is counted always.
#[derive(Clone, Copy, Debug, PartialEq, Eq)]
pub enum Ends {
    /// The run returned.
    Returned,
    /// It returned, or a trap ended it.
    Trapped,
    /// It returned, a trap ended it, an assumption didn't hold, or a call would have made more than 64 frames.
    Any,
}

impl Ends {
    ghost use Rattle.std.specs.Prelude.{◌≡◌};
    ghost use Rattle.c_meaning.specs.Runs.{counts_any, counts_traps};

    /// Whether a run that a trap ended is counted.
    pub fn counts_traps(self) -> bool
        ensures { result ≡ counts_traps self }
    {
        match self {
            Ends::Returned => false,
            Ends::Trapped | Ends::Any => true,
        }
    }

    /// Whether any end is counted, also that of a run that is blocked or too deep.
    pub fn counts_any(self) -> bool
        ensures { result ≡ counts_any self }
    {
        match self {
            Ends::Returned | Ends::Trapped => false,
            Ends::Any => true,
        }
    }
}
