//! The printed answers: what was measured and what was found by generation, as a text and as JSON; the goals of a query; the
//! runs of inputs; an automaton; the lines of one goal and of a sample; and whether bounds suffice.
//!
//! It stands on `goals` for plans and answers, on `path_runner` for how runs end, on `cfa` for places, on `input_text` for
//! inputs as JSON, and on `serde_json` for JSON. The layers above use that each call answers exactly the text of specs/:
//! [`measured_text`], [`goals_text`], [`runs_text`] and [`inputs_text`] those of specs/Texts.antt, [`graph_text`] that of
//! specs/GraphText.antt, and [`measured_json`] that of specs/Json.antt; [`generated_text`], [`proved_text`],
//! [`undecided_text`], [`refuted_text`] and [`sample_text`] those of specs/Generated.antt, and [`generated_json`] that of
//! specs/GeneratedJson.antt; [`least_text`] and [`open_text`] those of specs/Least.antt, and [`suffice_text`], [`left_text`]
//! and [`open_bounds_text`] those of specs/Suffice.antt. Start at measured.rt and generated.rt.
#![tactic(auto)]

mod automaton;
mod counts;
mod edges;
mod ends;
mod events;
mod generated;
mod generated_values;
mod json;
mod least;
mod letters;
mod lines;
mod listed;
mod made;
mod measured;
mod numbers;
mod one_goal;
mod strings;
mod suffice;

pub use automaton::graph_text;
pub use events::events_text;
pub use generated::generated_text;
pub use generated_values::generated_json;
pub use json::measured_json;
pub use least::{least_text, open_text};
pub use listed::{goals_text, inputs_text, runs_text};
pub use measured::measured_text;
pub use one_goal::{proved_text, refuted_text, sample_text, undecided_text};
pub use suffice::{left_text, open_bounds_text, suffice_text};
