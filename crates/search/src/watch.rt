// Who is shown the histories of searches that spent their budget.
ghost use Rattle.std.specs.Prelude.{◌≡◌, ◌++◌, ◌∷◌, [], ℕ, List, Option, None, Some, IsOk, OnOk, OnErr};
ghost use Rattle.std.specs.Option.{option_map};
ghost use Rattle.cnf.specs.declared.formula.Formula.{Formula as FormulaValue};
ghost use Rattle.search.specs.declared.moves.History.{History as HistoryValue};

use crate::moves::History;
use cnf::Formula;
use containers::{TryClone, Vector};
use fq_core::Memory;
use std::alloc::Global;

/// Who is shown each goal that stays undecided, with its formula and the history of its search.
pub trait Watch {
    /// What it was shown, in order, where that is told.
    ghost seen: { Self → Option (List (ℕ × FormulaValue × HistoryValue)) };

    /// Shows a goal's number, formula and history.
    fn shown(&mut self, goal: u32, formula: &Formula, history: &History) -> Result<(), Memory>
        ensures ok { OnOk result (seen self.new ≡ option_map (λ list. list ++ (goal, formula.now, history.now) ∷ []) (seen self.old)) }
        ensures err { OnErr result (seen self.new ≡ seen self.old) };
}

/// Keeps all that it is shown.
#[derive(Drop)]
pub struct KeepWatch {
    pub list: Vector<(u32, Formula, History)>,
}

impl KeepWatch {
    /// One that was shown nothing. It takes no memory.
    pub fn new(alloc: Global) -> KeepWatch
        ensures { result.list ≡ [] }
    {
        KeepWatch {
            list: Vector::new(alloc),
        }
    }
}

impl Watch for KeepWatch {
    ghost seen = { λ watch. Some watch.list };

    fn shown(&mut self, goal: u32, formula: &Formula, history: &History) -> Result<(), Memory> {
        let alloc = self.list.allocator();
        let formula = formula.try_clone(alloc)?;
        let history = history.try_clone(alloc)?;
        Ok(self.list.push((goal, formula, history))?)
    }
}

/// Keeps nothing, and tells nothing.
#[derive(Clone, Copy, Debug, PartialEq, Eq)]
pub struct NoWatch;

impl Watch for NoWatch {
    ghost seen = { λ _. None };

    // What the trait says of what was seen holds, since nothing is told.
    fn shown(&mut self, _goal: u32, _formula: &Formula, _history: &History) -> Result<(), Memory>
        ensures { IsOk result }
    {
        Ok(())
    }
}
