// The inputs of a circuit, and the words over them.
ghost use Rattle.std.specs.Prelude.{◌≡◌, ℕ, ◌+◌, ◌*◌, ◌<◌, ◌≤◌, ◌^◌, [], All, IfOk, OnOk, length, replicate, slice_get, slice_index};
ghost use Rattle.std.specs.Option.{IsSomeAnd};
ghost use Rattle.circuit.specs.Wires.{IsWire, input_count};
ghost use Rattle.c_values.specs.Kind.{IsKind};
ghost use Rattle.cfa.specs.Each.{Each};
ghost use Rattle.c_meaning.specs.declared.input.Input.{Input as GivenInput};
ghost use Rattle.c_meaning.specs.Starts.{fitted_words};
ghost use Rattle.bit_words.specs.Words.{IsWord};
ghost use Rattle.sym_expr.specs.Stores.{cells_in};
ghost use Rattle.unwinder.specs.input_words.Inputs.{AreInputs, first_input};
ghost use Rattle.unwinder.specs.input_words.Parts.{AreWordsOf, HasInputs, IsInputWord, answer_kind, input_gates};
ghost use Rattle.unwinder.specs.input_words.Worlds.{total_width, world_length, world_of};

use bit_words::{Word, extended};
use c_values::Kind;
use circuit::{Circuit, Lit, Memory};
use containers::Vector;
use std::alloc::Global;

/// The words of the inputs of all runs of a function.
#[derive(Debug, Drop)]
pub struct InputWords {
    /// The words of the arguments, in the order of the parameters.
    pub words: Vector<Word>,
    /// The words of the answers, in their order.
    pub answers: Vector<Word>,
}

/// The word of which the lowest so many bits are new inputs, and the others are no.
fn fresh_bits(circuit: &mut Circuit, count: usize) -> Result<Word, Memory>
    requires inputs { circuit.old ≡ input_gates (length circuit.old) }
    requires few { count ≤ 64 }
    requires room { length circuit.old + count ≤ 2 ^ 30 }
    ensures gates { OnOk result (circuit.new ≡ input_gates (length circuit.old + count)) }
    ensures bits { IfOk result (HasInputs (length circuit.old) count) }
{
    let mut bits = [Lit::NO; 64];
    for i in 0..count {
        bits[i] = circuit.input()?;
    }
    Ok(bits)
}

/// A word of a kind: new inputs for the bits below its width, and the kind's bits above them.
fn input_word(circuit: &mut Circuit, kind: Kind) -> Result<Word, Memory>
    requires kind { IsKind kind }
    requires inputs { circuit.old ≡ input_gates (length circuit.old) }
    requires room { length circuit.old + kind.width ≤ 2 ^ 30 }
    ensures gates { OnOk result (circuit.new ≡ input_gates (length circuit.old + kind.width)) }
    ensures word { IfOk result (IsInputWord (length circuit.old) kind) }
{
    let bits = fresh_bits(circuit, kind.width as usize)?;
    Ok(extended(&bits, kind))
}

/// A word for each parameter.
fn argument_words(
    alloc: Global,
    circuit: &mut Circuit,
    parameters: &[Kind],
) -> Result<Vector<Word>, Memory>
    requires kinds { All IsKind parameters.now }
    requires inputs { circuit.old ≡ input_gates (length circuit.old) }
    requires room { length circuit.old + total_width parameters.now ≤ 2 ^ 30 }
    ensures gates { OnOk result (circuit.new ≡ input_gates (length circuit.old + total_width parameters.now)) }
    ensures words { IfOk result (AreWordsOf (length circuit.old) parameters.now) }
{
    let mut words = Vector::new(alloc);
    for kind in parameters {
        words.push(input_word(circuit, *kind)?)?;
    }
    Ok(words)
}

/// So many words of 64 bits.
fn answer_words(alloc: Global, circuit: &mut Circuit, count: u32) -> Result<Vector<Word>, Memory>
    requires inputs { circuit.old ≡ input_gates (length circuit.old) }
    requires room { length circuit.old + 64 * count ≤ 2 ^ 30 }
    ensures gates { OnOk result (circuit.new ≡ input_gates (length circuit.old + 64 * count)) }
    ensures words { IfOk result (AreWordsOf (length circuit.old) (replicate count answer_kind)) }
{
    let mut words = Vector::new(alloc);
    for _number in 0..count {
        words.push(input_word(circuit, Kind::UNSIGNED_LONG)?)?;
    }
    Ok(words)
}

/// The inputs of all runs of a function with these parameters, of whose answers so many are told apart, and the words over
/// them. The circuit has no gate before.
///
/// The inputs are the bits of each argument, the lowest first, and then 64 for each answer. A word has its inputs below its
/// kind's width, and is extended by the kind above.
///
/// # Errors
///
/// Want of memory alone. Nothing is said of the circuit then.
pub fn inputs(
    alloc: Global,
    circuit: &mut Circuit,
    parameters: &[Kind],
    answers: u32,
) -> Result<InputWords, Memory>
    requires empty { circuit.old ≡ [] }
    requires kinds { All IsKind parameters.now }
    requires room { world_length parameters.now answers ≤ 2 ^ 30 }

    // The circuit has the inputs and nothing else.
    ensures wires_used { OnOk result (length circuit.new ≡ world_length parameters.now answers) }
    ensures inputs_alone { OnOk result (input_count circuit.new ≡ world_length parameters.now answers) }

    ensures word_count { IfOk result (λ made. length made.words ≡ length parameters.now) }
    ensures words { IfOk result (λ made. Each parameters.now (λ k kind. IsSomeAnd (slice_get made.words k) (AreInputs circuit.new (first_input parameters.now k) kind.width))) }
    ensures kinds { IfOk result (λ made. Each parameters.now (λ k kind. IsSomeAnd (slice_get made.words k) (IsWord circuit.new kind))) }
    ensures word_wires { IfOk result (λ made. All (All (IsWire circuit.new)) made.words) }

    ensures answer_count { IfOk result (λ made. length made.answers ≡ answers) }
    ensures answers { IfOk result (λ made. Each made.answers (λ k word. AreInputs circuit.new (first_input parameters.now (length parameters.now) + 64 * k) 64 word)) }
    ensures answer_wires { IfOk result (λ made. All (All (IsWire circuit.new)) made.answers) }

    // What the words are in the world of an input.
    ensures values { IfOk result (λ made. (input : GivenInput) → length input.words ≡ length parameters.now → cells_in circuit.new made.words (world_of parameters.now answers input) ≡ fitted_words input.words parameters.now) }
    ensures answer_values { IfOk result (λ made. (input : GivenInput) → All (λ answer. answer < 2 ^ 64) input.answers → (number : ℕ) → number < answers → slice_index (cells_in circuit.new made.answers (world_of parameters.now answers input)) number ≡ slice_index input.answers number) }
{
    let words = argument_words(alloc, circuit, parameters)?;
    let answers = answer_words(alloc, circuit, answers)?;
    Ok(InputWords { words, answers })
}
