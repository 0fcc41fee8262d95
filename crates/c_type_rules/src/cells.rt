// Faults, names and cells in the state of typing.
ghost use Rattle.std.specs.Prelude.{◌≡◌, length, IfOk, OnOk};
ghost use Rattle.c_type_rules.specs.Rule.{after, made_by, with_fault, expect, temporary, local, bind, bind_label, bind_case, entered, left, numbered_from, with_cases};

use crate::faults::{Found, noted};
use crate::scopes::{Bound, Cases};
use crate::typer::Typer;
use fq_core::{Name, Span};
use std::alloc::AllocError;
use std::mem::replace;

impl Typer {
    /// Notes a fault.
    #[tactic(auto, unfolding(crate::specs::Rule::with_fault))]
    pub fn fault(&mut self, code: u16, span: Span)
        ensures { self.new ≡ with_fault code span self.old }
    {
        self.fault = noted(self.fault, Found { span, code });
    }

    /// Notes a fault where something isn't so.
    #[tactic(auto, using(crate::proofs::RuleLaws::expect_laws))]
    pub fn expect(&mut self, code: u16, span: Span, holds: bool)
        ensures { self.new ≡ after (expect code span holds) self.old }
    {
        if !holds {
            self.fault(code, span);
        }
    }

    /// The number of a new temporary.
    #[tactic(auto, using(crate::proofs::RuleLaws::cell_laws))]
    pub fn new_temporary(&mut self) -> Result<u32, AllocError>
        ensures number { IfOk result (λ cell. cell ≡ made_by temporary self.old) }
        ensures state { OnOk result (self.new ≡ after temporary self.old) }
    {
        let cell = self.temporary;
        if cell == u32::MAX {
            return Err(AllocError);
        }
        self.temporary = cell + 1;
        Ok(cell)
    }

    /// The first of so many new cells for a local, or for a global outside of all functions.
    #[tactic(auto, using(crate::proofs::RuleLaws::cell_laws))]
    pub fn new_local(&mut self, cells: u32) -> Result<u32, AllocError>
        ensures cell { IfOk result (λ cell. cell ≡ made_by (local cells) self.old) }
        ensures state { OnOk result (self.new ≡ after (local cells) self.old) }
    {
        let cell = self.local;
        if cells > u32::MAX - cell {
            return Err(AllocError);
        }
        self.local = cell + cells;
        Ok(cell)
    }

    /// Binds a name.
    #[tactic(auto, using(crate::proofs::RuleLaws::bind_after))]
    pub fn bind(&mut self, bound: Bound) -> Result<(), AllocError>
        ensures { OnOk result (self.new ≡ after (bind bound) self.old) }
    {
        self.bound.push(bound)
    }

    /// Adds a label of the function.
    #[tactic(auto, using(crate::proofs::RuleLaws::bind_label_after))]
    pub fn bind_label(&mut self, name: Name) -> Result<(), AllocError>
        ensures { OnOk result (self.new ≡ after (bind_label name) self.old) }
    {
        self.labels.push(name)
    }

    /// Adds a value of `case`, or `default`.
    #[tactic(auto, using(crate::proofs::RuleLaws::bind_case_after))]
    pub fn bind_case(&mut self, value: Option<u64>) -> Result<(), AllocError>
        ensures { OnOk result (self.new ≡ after (bind_case value) self.old) }
    {
        self.cases.push(value)
    }

    /// Puts other values of `case` in the place of those that are there, and answers these.
    #[tactic(auto, unfolding(crate::specs::Rule::with_cases))]
    pub fn replace_cases(&mut self, cases: Cases) -> Cases
        ensures before { result ≡ self.old.cases }
        ensures state { self.new ≡ with_cases cases self.old }
    {
        replace(&mut self.cases, cases)
    }

    /// Numbers the next temporary, and answers what its number was.
    #[tactic(auto, unfolding(crate::specs::Rule::numbered_from))]
    pub fn number_from(&mut self, number: u32) -> u32
        ensures before { result ≡ self.old.temporary }
        ensures state { self.new ≡ numbered_from number self.old }
    {
        let before = self.temporary;
        self.temporary = number;
        before
    }

    /// Enters a scope, and answers how many names are bound outside of it.
    #[tactic(auto, unfolding(crate::specs::Rule::entered))]
    pub fn enter(&mut self) -> Result<usize, AllocError>
        ensures mark { IfOk result (λ mark. mark ≡ length self.old.bound) }
        ensures state { OnOk result (self.new ≡ entered self.old) }
    {
        if self.level == u32::MAX {
            return Err(AllocError);
        }
        self.level += 1;
        Ok(self.bound.len())
    }

    /// Leaves the innermost scope, outside of which so many names are bound.
    #[tactic(auto, unfolding(crate::specs::Rule::left))]
    pub fn leave(&mut self, mark: usize)
        ensures { self.new ≡ left mark self.old }
    {
        self.bound.leave(mark);
        self.level = self.level.saturating_sub(1);
    }
}
