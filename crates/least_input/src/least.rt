// What is found of the least input of a goal.
use c_meaning::Input;
use cnf::{Derivation, Formula};
use containers::Vector;
use goal_formula::GoalFormula;
use search::History;

/// What shows that a bit of the least input can't be 0.
#[derive(Debug, Drop)]
pub struct Fixed {
    /// The literals that set each earlier bit that has a variable as it is, and this bit to 0.
    pub units: Vector<i32>,
    /// Shows that no assignment satisfies the goal's formula with these at its end as unit clauses, in order.
    pub derivation: Derivation,
}

/// What is found of the least input of a goal within the bounds and a budget.
#[derive(Drop)]
pub enum Least {
    /// The least input whose run within the bounds hits the goal, with all the answers that the bounds allow. Each argument
    /// of a kind of so many bits is below 2 to their number: -1 of kind int is 4294967295.
    Found {
        input: Input,
        /// A formula that is exact for the goal.
        formula: GoalFormula,
        /// One part for each bit of the input that is 1, from the first word's highest bit on.
        fixed: Vector<Fixed>,
    },
    /// A formula that is exact for the goal, and a derivation that shows that no assignment satisfies it.
    Refuted {
        formula: GoalFormula,
        derivation: Derivation,
    },
    /// A formula that is exact for the goal, with unit clauses on input bits, and the moves of its search, as many as the
    /// budget, after which it isn't finished.
    Open {
        formula: Formula,
        history: History,
    },
}
