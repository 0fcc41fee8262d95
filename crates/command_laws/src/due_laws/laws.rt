//! Laws of what is due. Each function does nothing else: its contract is the law.
ghost use Rattle.command_laws.specs.due_laws.Accepted.{BoundsCertificatesAreAccepted, CertificatesAreAccepted};
ghost use Rattle.command_laws.specs.due_laws.Agreement.{CountsAddUp, CoveredIsNeverRefuted};
ghost use Rattle.command_laws.specs.due_laws.Determined.{AtMostOneIsDue, AtMostOneKindIsDue};
ghost use Rattle.command_laws.specs.due_laws.Printed.{PrintedInputsAreRead, PrintedLinesAreRead};
ghost use Rattle.command_laws.specs.due_laws.Remeasured.{MadeInputsAreMeasured, MadeInputsAreMeasuredWhole};
ghost use Rattle.command_laws.specs.due_laws.Unreachable.{AcceptedMeansUnreachable};

use crate::made_laws::made_runs_are_short;
use bounds_check::laws::unhit_is_unreachable;
use measurer_hits::hits::laws::one_list_of_hits;
use path_runner::laws::recorded_runs;
use unwinder_reach::reached_laws::laws::{not_too_many, one_count, one_size};

/// What is due of a command that measures or lists is determined by its words and by what its files hold.
pub fn at_most_one_is_due()
    ensures { AtMostOneIsDue }
{
    c_front::laws::one_outcome();
    c_front::typed_sources::laws::one_outcome();
    predicates::laws::one_outcome();
    one_list_of_hits();
}

/// Two texts that are due of any command are alike: the same refusal, or both answers; but for `check` and `check-bounds`, of
/// which one may say that the formula is another one.
pub fn at_most_one_kind_is_due()
    ensures { AtMostOneKindIsDue }
{
    c_front::laws::one_outcome();
    c_front::typed_sources::laws::one_outcome();
    predicates::laws::one_outcome();
    one_list_of_hits();
    one_count();
    one_size();
    not_too_many();
}

/// A goal that an input covers, by `generate`, `prove` or `least`, is refuted by none of these and `check`.
pub fn covered_is_never_refuted()
    ensures { CoveredIsNeverRefuted }
{}

/// Of a generation, the goals that are covered, refuted and undecided are all goals.
pub fn counts_add_up()
    ensures { CountsAddUp }
{}

/// What `prove` writes of a goal that it refuted is a certificate, and `check` accepts it, or says that its formula is another
/// one than it makes itself.
pub fn certificates_are_accepted()
    ensures { CertificatesAreAccepted }
{
    c_front::laws::one_outcome();
    predicates::laws::one_outcome();
    one_list_of_hits();
    one_count();
    one_size();
    not_too_many();
}

/// What `prove-bounds` writes of bounds that suffice is a certificate, and `check-bounds` accepts it, or says that its formula is
/// another one than it makes itself.
pub fn bounds_certificates_are_accepted()
    ensures { BoundsCertificatesAreAccepted }
{
    c_front::laws::one_outcome();
    predicates::laws::one_outcome();
    one_list_of_hits();
    one_count();
    one_size();
    not_too_many();
}

/// Where `check` accepts a certificate of a goal, and `check-bounds` one of the bounds, or `bounds` says that they suffice, no input
/// at all has a run that hits the goal, of whatever length.
pub fn accepted_means_unreachable()
    ensures { AcceptedMeansUnreachable }
{
    c_front::laws::one_outcome();
    unhit_is_unreachable();
}

/// The inputs in the JSON report of a generation, read as an array of inputs, are those that were made.
pub fn printed_inputs_are_read()
    ensures { PrintedInputsAreRead }
{}

/// The arguments and answers of each input in the text report of a generation, read as lines of inputs are, are those that were
/// made.
pub fn printed_lines_are_read()
    ensures { PrintedLinesAreRead }
{}

/// The inputs of a generation, measured with steps that are enough for their runs, hit the goals that were found: each covered
/// goal is covered by the same input, and each refuted one is missed.
pub fn made_inputs_are_measured()
    ensures { MadeInputsAreMeasured }
{
    recorded_runs();
    one_list_of_hits();
}

/// The same with 49,999 steps or more, which are enough for the runs of all inputs that were made.
pub fn made_inputs_are_measured_whole()
    ensures { MadeInputsAreMeasuredWhole }
{
    made_runs_are_short();
    recorded_runs();
    one_list_of_hits();
}
