//! The clauses of a circuit's cone (Tseitin 1968, "On the complexity of derivation in propositional calculus").
//!
//! It stands on `circuit` and on `cnf`. [`clause_form`] answers a formula that is satisfiable exactly where a literal of the
//! circuit holds in some world: the wires that the literal reaches through gates are its variables, each gate among them has
//! three clauses, and one more says the literal itself. The layers above use which clauses these are, that an assignment
//! that satisfies them gives each variable what its wire holds in the world of the inputs, in which the literal holds, and
//! that what the wires hold in a world in which the literal holds satisfies them.
//!
//! The cone is in specs/Cone.antt, the clauses in specs/Encoding.antt, and what assignments and worlds have to do with each
//! other in specs/Worlds.antt. Start at `clause_form` in src/form.rt.
#![tactic(auto)]

mod clauses;
mod cone;
mod form;
mod literals;
mod numbers;

pub use form::{ClauseForm, clause_form};
