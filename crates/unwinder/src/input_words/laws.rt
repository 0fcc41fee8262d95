//! Laws of the definitions in specs/. Each function does nothing: its contract is the law.
ghost use Rattle.unwinder.specs.input_words.Laws.{EveryWorld, InputsStay, TruncatedAnswers, WorldLength};

/// Words of inputs stay such words as the circuit grows.
pub fn inputs_stay()
    ensures { InputsStay }
{}

/// Each input's world has a value for each input of the circuit.
pub fn world_lengths()
    ensures { WorldLength }
{}

/// Of an input's answers the first ones alone make its world.
pub fn truncated_answers()
    ensures { TruncatedAnswers }
{}

/// Each world of that length is the world of some input.
pub fn every_world()
    ensures { EveryWorld }
{}
