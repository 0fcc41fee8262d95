//! The goals of a query over a control flow automaton (FQL: Holzer, Schallhart, Tautschnig, Veith, VMCAI 2009 and ASE 2010;
//! the words of a cover clause and their order are this project's profile, see docs/QUERY.md).
//!
//! It stands on `applied_clauses`. The layers above use the contract of [`plan_of`]: the plan of a query is exactly that of
//! specs/ (`plan_with`), or the refusal is the first of the query's causes (`causes`). A goal is seen by contracts as its
//! word and its pattern, and in memory goals share the patterns of their quoted letters. Start at planning.rt.
//!
//! It has these modules too:
//!
//! - [`applied_clauses`]: What the letters of a query's clauses stand for in a control flow automaton.
#![tactic(auto)]

mod answer;
pub mod applied_clauses;
mod counts;
mod distinct;
mod forms;
mod goal;
mod goal_letter;
mod laws;
mod plan;
mod planning;
mod quotes;
mod words;

pub use answer::Answer;
pub use goal::Goal;
pub use goal_letter::GoalLetter;
pub use laws::goals_are_the_different_words;
pub use plan::{PassingPattern, Plan};
pub use planning::plan_of;
