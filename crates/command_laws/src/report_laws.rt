//! What the text report of a generation says of each goal: from the bytes back to the answers.
//!
//! It has no code; `specs/report_laws/Laws` has the law. It stands on `report` for the text, and on `suite` for what was made.

ghost use Rattle.command_laws.specs.report_laws.Laws.{AnswersAreRead};

/// The answers that a report's lines have are those of the generation that it reports.
pub fn answers_are_read()
    ensures { AnswersAreRead }
{}
