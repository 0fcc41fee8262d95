// What follows from the definitions.
ghost use Rattle.trace_file.specs.Laws.{TextsAreRead};

/// What is written of at most 10,000 traces of counted runs is read again, with the same runs.
pub fn texts_are_read()
    ensures { TextsAreRead }
{}
