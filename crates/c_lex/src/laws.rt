// What the definitions imply.
ghost use Rattle.c_lex.specs.Macros.{AllLoopOrEnd, LoopsHaveNoEnd};
ghost use Rattle.c_lex.specs.NumbersOfKinds.{NumbersAreValues};
ghost use Rattle.c_lex.specs.OneReading.{OneReading, SomeReading};

/// Texts have one list of tokens, or one refusal: what `tokens` answers is determined by its texts, but for want of
/// memory.
pub fn one_reading()
    ensures one { OneReading }
    ensures some { SomeReading }
{}

/// A replacement in which a word is met within its own replacement has no end, and each other replacement has one
/// (ISO/IEC 9899:2011, 6.10.3.4): so `tokens` refuses with code 14 just the macros whose replacement has no end.
pub fn a_loop_has_no_end()
    ensures excluded { LoopsHaveNoEnd }
    ensures total { AllLoopOrEnd }
{}

/// Each number among the tokens of texts is a value of its kind.
pub fn numbers_are_values()
    ensures { NumbersAreValues }
{}
