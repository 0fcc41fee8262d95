//! What typing makes is fit for lowering: the law between `c_types` and the makers of automata.
//!
//! It stands on the typing rules of `c_type_rules` and `c_types`, on `IsFitting` of `c_typed_trees`, which says what
//! lowering needs of a typed unit, and on `tree_contents`, which says what the trees of texts hold. It has no code: each
//! law is the contract of a function with an empty body. It says that wherever `check` answers a typed unit, each
//! variable lies within the globals or its function's frame, each operand has the kind that its operation takes, each
//! call names a function that is there and passes what that takes, and each token lies in a file that is there. What
//! `type_expression` answers meets the automaton's rules for expressions.

pub mod laws;
