// Formulas of goals.
use cnf::Formula;
use containers::Vector;

/// A goal's formula, with the variable of each input bit that it has, the lowest bit first.
#[derive(Debug, Drop)]
pub struct GoalFormula {
    pub formula: Formula,
    /// The variable of each wire of the circuit, from wire 1 on: first those of the unwinding's wires.
    pub variable: Vector<Option<u32>>,
    /// For each argument a place for each of its bits.
    pub words: Vector<Vector<Option<u32>>>,
    /// For each answer within the bounds 64 places.
    pub answers: Vector<Vector<Option<u32>>>,
}
