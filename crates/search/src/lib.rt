//! The search machine: states with a trail and learned clauses, its moves, and who is shown histories that spent their
//! budget (clause learning: Marques-Silva and Sakallah 1999; the words are those of MiniSat, Eén and Sörensson 2003).
//!
//! It stands on `cnf` and on `literal_marks`. specs/Machine.antt says what a move is; the laws say that histories end, and
//! that none stops before.
//! `search` propagates by two watched literals a clause, with a blocking literal beside each watcher, and a queue
//! (specs/Watching.antt), so that a move costs the watchers that it visits; all clauses are looked at once before the first
//! move, and once where the budget is spent. A conflict is resolved to the first unique implication point
//! (specs/Chains.antt), without a pass over the variables, and then on literals that its others imply (implied.rt,
//! minimizing.rt). The variable that was most active in conflicts is decided next, to be as it last was, and of those that
//! never were active the lowest or the highest, as the caller says, false or by a mixture of signs (beginning.rt); that each
//! open one is listed is kept (specs/Orders.antt), their order is free. A learned line is kept once. The history is made of
//! the steps and the lines where the budget is spent (specs/Steps.antt, specs/Endings.antt), of a search whose history isn't
//! shown never. The layers above use what `search` and `search_in_order` answer (specs/Nexts.antt), and that `shown` appends
//! what it is given, and after want of memory nothing. Start at searching.rt.
#![tactic(auto)]

mod beginning;
mod chain;
mod choice;
mod conflict;
mod ending;
mod first_variables;
mod found;
mod history;
mod implied;
mod installing;
mod landing;
pub mod laws;
mod machine;
mod minimizing;
mod moves;
mod next;
mod order;
mod orders;
mod reading;
mod rounds;
mod scan;
mod searching;
mod status;
mod trail;
mod visit;
mod watch;
mod watching;

pub use first_variables::FirstVariables;
pub use found::Found;
pub use moves::{History, Move};
pub use orders::{search_both, search_ends, search_highest_part, search_lowest_part, search_whole};
pub use searching::{search, search_in_order};
pub use watch::{KeepWatch, NoWatch, Watch};
