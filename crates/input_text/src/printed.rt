// An input as JSON.
ghost use Rattle.std.specs.Prelude.{◌≡◌, IfOk, length, map, take};
ghost use Rattle.serde_json.specs.View.{view};
ghost use Rattle.input_text.specs.Printed.{answers_data, arguments_data, input_data, word_data};

use c_meaning::Input;
use c_values::Kind;
use fq_core::Memory;
use serde_json::{Value, json};
use std::alloc::{AllocError, Global};

// The number that a word stands for in a kind.
fn word_value(kind: Kind, word: u64) -> Value
    ensures { view result ≡ word_data kind word }
{
    if kind.signed {
        Value::from(word.cast_signed())
    } else {
        Value::from(word)
    }
}

fn arguments(alloc: Global, words: &[u64], kinds: &[Kind]) -> Result<Vec<Value>, AllocError>
    requires { length words.now ≡ length kinds.now }
    ensures { IfOk result (λ values. map view values.items ≡ arguments_data words.now kinds.now) }
{
    let mut values = Vec::new(alloc);
    for place in 0..words.len() {
        values.push(word_value(kinds[place], words[place]))?;
    }
    Ok(values)
}

fn answers(alloc: Global, answers: &[(Kind, u64)]) -> Result<Vec<Value>, AllocError>
    ensures { IfOk result (λ values. map view values.items ≡ answers_data answers.now) }
{
    let mut values = Vec::new(alloc);
    for answer in answers {
        values.push(word_value(answer.0, answer.1))?;
    }
    Ok(values)
}

/// An input as a JSON object with the keys `answers` and `args`: its arguments as numbers of the parameters' kinds, and
/// these answers as numbers of theirs. There is one kind for each argument.
pub fn input_json(
    alloc: Global,
    input: &Input,
    kinds: &[Kind],
    answers: &[(Kind, u64)],
) -> Result<Value, Memory>
    requires { length input.now.words ≡ length kinds.now }
    ensures { IfOk result (λ value. view value ≡ input_data input.now kinds.now answers.now) }
{
    let arguments = Value::from(arguments(alloc, &input.words, kinds)?);
    let answers = Value::from(self::answers(alloc, answers)?);
    Ok(json!(in alloc; {"answers": answers, "args": arguments})?)
}
