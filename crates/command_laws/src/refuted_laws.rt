//! What printed lines together say of all runs: a goal that is refuted within bounds that suffice is hit by no run at all, and where
//! a report refutes each end but returns, no input's run ends in a run-time error (ISO/IEC 9899:2011, 3.4.3, 5.1.2.3; FQL: Holzer,
//! Schallhart, Tautschnig, Veith, VMCAI 2009 and ASE 2010).
//!
//! It has no code; `specs/refuted_laws/Laws` and `specs/refuted_laws/Reports` have the laws. It stands on `printed_laws` and `report_laws` for what a line
//! says, and on `bounds_check` and `made_laws` for what follows where bounds suffice.

ghost use Rattle.command_laws.specs.refuted_laws.Laws.{RefutedIsUnreachable};
ghost use Rattle.command_laws.specs.refuted_laws.Reports.{ReportsAreTrue, ReportsLetReturn, ReportsRefuteTraps};

use crate::made_laws::{each_returns, none_traps};
use crate::report_laws::answers_are_read;
use bounds_check::laws::unhit_is_unreachable;
use bounds_check_laws::asked_ends::all_ends_are_asked;
use bounds_check_laws::plain_returns::automata_return_plainly;
use c_front::laws::one_outcome;

/// A goal that a line says is refuted, within bounds that a line says suffice, is hit by no run at all.
pub fn refuted_is_unreachable()
    ensures { RefutedIsUnreachable }
{
    one_outcome();
    unhit_is_unreachable();
}

/// What `generate` writes is the report of a generation, of which each answer is true.
pub fn reports_are_true()
    ensures { ReportsAreTrue }
{}

/// With traps counted, where the lines of a report refute each goal but the exit's, and a line says that the bounds suffice, no
/// input's run ends in a trap.
pub fn reports_refute_traps()
    ensures { ReportsRefuteTraps }
{
    one_outcome();
    automata_return_plainly();
    all_ends_are_asked();
    answers_are_read();
    none_traps();
}

/// With any end counted, every input's run returns then, after fewer than 50,000 edges.
pub fn reports_let_return()
    ensures { ReportsLetReturn }
{
    one_outcome();
    automata_return_plainly();
    all_ends_are_asked();
    answers_are_read();
    each_returns();
}
