// The inputs of a JSON text.
ghost use Rattle.std.specs.Prelude.{◌≡◌, IfErr, IfOk, Err, Ok, option_map};
ghost use Rattle.serde_json.specs.Find.{as_array};
ghost use Rattle.serde_json.specs.View.{items_view, view};
ghost use Rattle.input_text.specs.Inputs.{inputs_of_array};
ghost use Rattle.input_text.specs.Json.{answers_of, arguments_of, array_of, json_of, object_input, object_parts, word_of, words_of, words_of_items};
ghost use Rattle.fq_core.specs.declared.refusal.Fault.TheVariants as fault;
ghost use Rattle.fq_core.specs.declared.refusal.Place.TheVariants as place;
ghost use Rattle.fq_core.specs.Refusals.{IfRefused};
ghost use Rattle.input_text.specs.Outcome.{numbered};

use crate::misfit::Misfit;
use crate::parts::add;
use c_meaning::Input;
use containers::Vector;
use fq_core::{Fault, Memory, Place, Refusal};
use serde_json::{Category, Value};
use std::alloc::{AllocError, Global};

// A whole number from -2^63 to 2^64 - 1, as a word of 64 bits.
fn word(value: &Value) -> Option<u64>
    ensures { result ≡ word_of (view value.now) }
{
    match value.as_u64() {
        Some(word) => Some(word),
        None => value.as_i64().map(|number| number.cast_unsigned()),
    }
}

// The words of these, or `None` where one of them is none.
fn words(alloc: Global, values: &[Value]) -> Result<Option<Vector<u64>>, AllocError>
    ensures { IfOk result (λ words. words ≡ words_of_items (items_view values.now)) }
{
    let mut words = Vector::new(alloc);
    for value in values {
        let Some(word) = word(value) else {
            return Ok(None);
        };
        words.push(word)?;
    }
    Ok(Some(words))
}

// The words of an array of whole numbers.
fn words_in(alloc: Global, value: &Value) -> Result<Option<Vector<u64>>, AllocError>
    ensures { IfOk result (λ words. words ≡ words_of (view value.now)) }
{
    match value.as_array() {
        Some(values) => words(alloc, values),
        None => Ok(None),
    }
}

fn arguments(alloc: Global, value: &Value) -> Result<Option<Vector<u64>>, AllocError>
    ensures { IfOk result (λ words. words ≡ arguments_of (view value.now)) }
{
    match value.get("args") {
        Some(args) => words_in(alloc, args),
        None => Ok(None),
    }
}

fn answers(alloc: Global, value: &Value) -> Result<Option<Vector<u64>>, AllocError>
    ensures { IfOk result (λ words. words ≡ answers_of (view value.now)) }
{
    match value.get("answers") {
        Some(answers) => words_in(alloc, answers),
        None => Ok(Some(Vector::new(alloc))),
    }
}

// What an element of the array gives.
fn input(alloc: Global, value: &Value, parameters: u32) -> Result<Result<Input, Misfit>, AllocError>
    ensures { IfOk result (λ part. part ≡ object_input parameters (view value.now)) }
{
    let Some(words) = arguments(alloc, value)? else {
        return Ok(Err(Misfit::Shape));
    };
    let Some(answers) = answers(alloc, value)? else {
        return Ok(Err(Misfit::Shape));
    };
    if words.len() != parameters as usize {
        return Ok(Err(Misfit::Shape));
    }
    Ok(Ok(Input { words, answers }))
}

fn inputs_in_array(alloc: Global, values: &[Value], parameters: u32) -> Result<Vec<Input>, Fault>
    ensures ok { IfOk result (λ inputs. numbered 1 (object_parts parameters (items_view values.now)) ≡ Ok inputs.items) }
    ensures refused { IfErr result (λ fault. IfRefused fault (λ refusal. numbered 1 (object_parts parameters (items_view values.now)) ≡ Err refusal)) }
{
    let mut inputs = Vec::new(alloc);
    for value in values {
        add(&mut inputs, input(alloc, value, parameters)?)?;
    }
    Ok(inputs)
}

fn not_json() -> Fault
    ensures { result ≡ fault.Refused (record { code = 50; place = place.InputNumber 0 }) }
{
    Fault::Refused(Refusal {
        code: 50,
        place: Place::InputNumber { number: 0 },
    })
}

fn inputs_in_value(alloc: Global, value: &Value, parameters: u32) -> Result<Vec<Input>, Fault>
    ensures ok { IfOk result (λ inputs. inputs_of_array parameters (as_array (view value.now)) ≡ Ok inputs.items) }
    ensures refused { IfErr result (λ fault. IfRefused fault (λ refusal. inputs_of_array parameters (as_array (view value.now)) ≡ Err refusal)) }
{
    match value.as_array() {
        Some(values) => inputs_in_array(alloc, values, parameters),
        None => Err(not_json()),
    }
}

// What bytes are as JSON, or `None` where they have no reading.
#[tactic(auto, using(crate::proofs::JsonLaws::json_there, crate::proofs::JsonLaws::json_missing))]
fn json(alloc: Global, bytes: &[u8]) -> Result<Option<Value>, Memory>
    ensures { IfOk result (λ value. option_map view value ≡ json_of bytes.now) }
{
    match Value::from_slice(alloc, bytes) {
        Ok(value) => Ok(Some(value)),
        Err(e) if e.classify() == Category::Memory => Err(Memory),
        Err(_) => Ok(None),
    }
}

/// The inputs of a text that is a JSON array of objects, or the refusal of the first that is wrong.
pub fn inputs_in_json(alloc: Global, bytes: &[u8], parameters: u32) -> Result<Vec<Input>, Fault>
    ensures ok { IfOk result (λ inputs. inputs_of_array parameters (array_of bytes.now) ≡ Ok inputs.items) }
    ensures refused { IfErr result (λ fault. IfRefused fault (λ refusal. inputs_of_array parameters (array_of bytes.now) ≡ Err refusal)) }
{
    match json(alloc, bytes)? {
        Some(value) => inputs_in_value(alloc, &value, parameters),
        None => Err(not_json()),
    }
}
