// What generation answers.
use c_meaning::Input;
use c_values::Kind;
use containers::Vector;
use goals::Answer;

/// The answers of all goals of a plan, and the inputs that were made for them.
#[derive(Drop)]
pub struct Generated {
    /// The answer of each goal, in order.
    pub answers: Vector<Answer>,
    /// The inputs, in the order of the goals for which they were made.
    pub inputs: Vector<Input>,
    /// Of each input the answers that its run reads, with their kinds.
    pub taken: Vector<Vector<(Kind, u64)>>,
    /// Of each input the numbers, from 1, of the goals that its run hits, rising.
    pub hits: Vector<Vector<u32>>,
}
