// Bytes as JSON texts.
ghost use Rattle.std.specs.Prelude.{◌≡◌, IfOk, map, string_bytes};
ghost use Rattle.serde_json.specs.View.{view};
ghost use Rattle.report.specs.Json.{masked, text_data};

use serde_json::Value;
use std::alloc::{AllocError, Global};
use std::str::from_utf8;

// A byte as a character, `?` where it is above 127.
fn masked_char(byte: u8) -> char
    ensures { result ≡ masked byte }
{
    if byte < 128 { byte as char } else { '?' }
}

// The bytes as a text, with each above 127 as `?`.
fn masked(alloc: Global, bytes: &[u8]) -> Result<String, AllocError>
    ensures { IfOk result (λ text. string_bytes text ≡ map masked bytes.now) }
{
    let mut text = String::new(alloc);
    for byte in bytes {
        text.push(masked_char(*byte))?;
    }
    Ok(text)
}

/// Bytes as a JSON text: themselves where they are UTF-8, and else with each byte above 127 as `?`.
#[tactic(auto, using(crate::proofs::JsonTexts::utf8_text, crate::proofs::JsonTexts::other_text))]
pub fn text_value(alloc: Global, bytes: &[u8]) -> Result<Value, AllocError>
    ensures { IfOk result (λ value. view value ≡ text_data bytes.now) }
{
    match from_utf8(bytes) {
        Ok(text) => Value::try_from_str(alloc, text),
        Err(_) => Ok(Value::from(masked(alloc, bytes)?)),
    }
}
