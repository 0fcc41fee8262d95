// The table of the macros of one text.
ghost use Rattle.std.specs.Prelude.{◌≡◌, [], ◌∷◌, ◌++◌, None, IfOk, OnOk, IfSome};

use crate::macros::{Macro, Replacement};
use containers::Vector;
use fq_core::Name;
use std::alloc::{AllocError, Global};
use std::collections::BTreeMap;

/// The macros in the order of their definitions, and the index of each name.
#[derive(Drop)]
pub struct Table {
    pub macros: Vec<Macro>,
    pub indexes: BTreeMap<Name, usize>,
}

impl Table {
    ghost use Rattle.c_lex.specs.Macros.{index_of};
    ghost use Rattle.c_lex.specs.Table.{IsIndexed};

    pub fn new(alloc: Global) -> Table
        ensures empty { result.macros.items ≡ [] }
        ensures indexed { IsIndexed result }
    {
        Table {
            macros: Vec::new(alloc),
            indexes: BTreeMap::new(alloc),
        }
    }

    /// The index of the macro of a name.
    pub fn index_of(&self, name: &Name) -> Option<usize>
        requires { IsIndexed self.now }
        ensures { result ≡ index_of self.now.macros.items name.now }
    {
        self.indexes.get(name).copied()
    }

    /// Takes in a macro whose name has none.
    pub fn define(&mut self, name: Name, list: Vector<Replacement>) -> Result<(), AllocError>
        requires indexed { IsIndexed self.old }
        requires new { index_of self.old.macros.items name ≡ None }
        ensures added { OnOk result (self.new.macros.items ≡ self.old.macros.items ++ record { name = name; list = list } ∷ []) }
        ensures indexed { OnOk result (IsIndexed self.new) }
    {
        let key = name.clone()?;
        let index = self.macros.len();
        self.macros.push(Macro { name, list })?;
        self.indexes.insert(key, index)?;
        Ok(())
    }
}
