// The inputs of a text.
ghost use Rattle.std.specs.Prelude.{◌≡◌, ◌==◌, ◌≤◌, IfErr, IfOk, Err, Ok, All, find, not, length};
ghost use Rattle.input_text.specs.Inputs.{begins_array, inputs_of, is_space};
ghost use Rattle.input_text.specs.Laws.{HasWords};
ghost use Rattle.fq_core.specs.Refusals.{IfRefused};
ghost use Rattle.input_text.specs.Outcome.{most_inputs};

use crate::json::inputs_in_json;
use crate::lines::inputs_in_lines;
use c_meaning::Input;
use fq_core::Fault;
use std::alloc::Global;

fn is_space(byte: u8) -> bool
    ensures { result ≡ is_space byte }
{
    matches!(byte, b' ' | b'\t' | b'\r' | b'\n')
}

// The first byte that is no space.
fn first_mark(bytes: &[u8]) -> Option<u8>
    ensures { result ≡ find (λ byte. not (is_space byte)) bytes.now }
{
    bytes.iter().copied().find(|byte| !is_space(*byte))
}

fn begins_array(bytes: &[u8]) -> bool
    ensures { result ≡ begins_array bytes.now }
{
    match first_mark(bytes) {
        Some(byte) => byte == b'[',
        None => false,
    }
}

fn read(alloc: Global, bytes: &[u8], parameters: u32) -> Result<Vec<Input>, Fault>
    ensures ok { IfOk result (λ inputs. inputs_of parameters bytes.now ≡ Ok inputs.items) }
    ensures refused { IfErr result (λ fault. IfRefused fault (λ refusal. inputs_of parameters bytes.now ≡ Err refusal)) }
{
    if begins_array(bytes) {
        inputs_in_json(alloc, bytes, parameters)
    } else {
        inputs_in_lines(alloc, bytes, parameters)
    }
}

/// The inputs of a text, each with so many arguments. Where its first byte that is no space, tab, carriage return or line
/// feed is `[`, the text is a JSON array of objects with the key `args` and, if they are given, `answers`, each an array of
/// whole numbers from -2^63 to 2^64 - 1; other keys don't matter, and of equal keys the last one counts. Any other text has
/// a line for each input, with its arguments in decimal, parted by spaces, tabs and carriage returns; blank lines are passed
/// over, and there are no answers.
///
/// It is refused with 50 at input 0 where it begins as a JSON array and isn't one; with 51 at an input of another form, with
/// another number of arguments or, on a line, with a word that is no number; with 52 at an input on a line with a number
/// outside -2^63 to 2^64 - 1; and with 53 at the limit, 10000, where there is one input more. The first input that is wrong
/// counts, and at one input the lower code.
pub fn inputs(alloc: Global, bytes: &[u8], parameters: u32) -> Result<Vec<Input>, Fault>
    ensures ok { IfOk result (λ inputs. inputs_of parameters bytes.now ≡ Ok inputs.items) }
    ensures refused { IfErr result (λ fault. IfRefused fault (λ refusal. inputs_of parameters bytes.now ≡ Err refusal)) }
    ensures few { IfOk result (λ inputs. length inputs.items ≤ most_inputs) }
    ensures words { IfOk result (λ inputs. All (HasWords parameters) inputs.items) }
{
    read(alloc, bytes, parameters)
}
