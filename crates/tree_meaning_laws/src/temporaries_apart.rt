//! Where the cells of a typed function's frame lie: a law of the typing rules of `c_type_rules` and `c_types`.
//!
//! `specs/temporaries_apart/Named.antt` says which cells a typed tree names, and `specs/temporaries_apart/Laws.antt` what is so of those of each function. The
//! law is the contract of a function with an empty body.

pub mod laws;
