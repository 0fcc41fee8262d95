// What follows from the definition of the inputs of a text.
ghost use Rattle.input_text.specs.Laws.{AcceptedTextsFit};

/// A text that isn't refused has at most 10,000 inputs, each with as many words as it was asked for.
pub fn accepted_texts_fit()
    ensures { AcceptedTextsFit }
{}
