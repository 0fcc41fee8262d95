//! Laws of the definitions of measuring, of statuses and of what is due. Each function does nothing else: its contract is the
//! law.
ghost use Rattle.command.specs.Codes.{NoneIsUsage, RefusalsHaveTheirCodes};
ghost use Rattle.command.specs.Laws.{CoveredByTheFirst, MissedByAll, OneStatusForEachCode};

/// A covered goal's answer names an input that hits the goal, and none with a lower number hits it.
pub fn covered_by_the_first()
    ensures { CoveredByTheFirst }
{}

/// A goal is missed where no input hits it.
pub fn missed_by_all()
    ensures { MissedByAll }
{}

/// Each code of the table of codes has exactly one row in the table of statuses.
pub fn one_status_for_each_code()
    ensures { OneStatusForEachCode }
{}

/// Each refusal of a file, of the sources, of the query, of the inputs and of a certificate has one of the codes of its stage,
/// and none of these ends in the status of wrong usage.
pub fn refusals_have_their_codes()
    ensures codes { RefusalsHaveTheirCodes }
    ensures none { NoneIsUsage }
{
    c_front::laws::refused_by_these_codes();
}
