//! Inputs as a text: a JSON array of objects, or a line of words for each input; and an input as JSON.
//!
//! It stands on `serde_json` for JSON, on `fq_core` for words and refusals and on `c_meaning` for what an input is. The
//! layers above use that [`inputs`] answers `inputs_of` (specs/Inputs.antt), the inputs of a text or the refusal of it, and
//! that [`input_json`] makes `input_data` (specs/Printed.antt). Start at reading.rt.
#![tactic(auto)]

mod json;
mod laws;
mod lines;
mod misfit;
mod parts;
mod printed;
mod reading;

pub use laws::accepted_texts_fit;
pub use printed::input_json;
pub use reading::inputs;
