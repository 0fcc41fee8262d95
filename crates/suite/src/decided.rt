// What is found of a goal.
use c_meaning::Input;
use cnf::Derivation;
use goal_formula::GoalFormula;
use search::History;

/// What is found of a goal within the bounds and a budget.
#[derive(Drop)]
pub enum Decided {
    /// An input whose run within the bounds hits the goal.
    Covered(Input),
    /// A formula that is exact for the goal, and a derivation that shows that no assignment satisfies it.
    Refuted {
        formula: GoalFormula,
        derivation: Derivation,
    },
    /// A formula that is exact for the goal, and the moves of its search, as many as the budget, after which it isn't finished.
    Undecided {
        formula: GoalFormula,
        history: History,
    },
}
