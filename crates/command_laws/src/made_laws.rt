//! What a generation says of all runs: how long those of the inputs that were made are, and, where all ends but returns are
//! refuted within bounds that suffice, how every input's run ends (ISO/IEC 9899:2011, 5.1.2.3; FQL: Holzer, Schallhart,
//! Tautschnig, Veith, VMCAI 2009 and ASE 2010).
//!
//! It has no code; `specs/made_laws/Laws` has the laws. It stands on `suite` for what is answered, on `bounds_check` for bounds that
//! suffice, and on `ending_laws` for the ends of runs.

ghost use Rattle.command_laws.specs.made_laws.Laws.{MadeRunsAreShort, AnswersRefuteEnds, NoneTraps, EachReturns};

/// Each run of an input that was made has fewer than 50,000 edges.
pub fn made_runs_are_short()
    ensures { MadeRunsAreShort }
{}

/// Where all answers but that of the exit are refuted, and the bounds suffice, the ends are refuted.
pub fn answers_refute_ends()
    ensures { AnswersRefuteEnds }
{}

/// With traps counted, no input at all ends in a trap then.
pub fn none_traps()
    ensures { NoneTraps }
{}

/// With any end counted, every input returns then.
pub fn each_returns()
    ensures { EachReturns }
{}
