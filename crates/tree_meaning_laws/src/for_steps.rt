//! What follows the passes of a `for`: by the syntax it is what an expression becomes, an assignment or a call, and typing
//! keeps it so (ISO/IEC 9899:2011, 6.8.5p1).
//!
//! `specs/for_steps/Simple.antt` says it of parse trees, `specs/for_steps/Laws.antt` of typed functions. The law is the contract of a function with
//! an empty body.

pub mod laws;
