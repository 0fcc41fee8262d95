// The variables that a scope lists, and what they ask of the cells that they name.
ghost use Rattle.std.specs.Prelude.{◌≡◌, ◌∷◌, [], ◌+◌, ◌++◌, ◌<◌, ◌^◌, ◌&&◌, ℕ, List, nat_le, IfOk};
ghost use Rattle.std.specs.List.{list_all};
ghost use Rattle.std.specs.Option.{option_copied};
ghost use Rattle.c_values.specs.Kind.{is_kind};
ghost use Rattle.cfa.specs.declared.parts.Variable.{Variable as OneVariable};
ghost use Rattle.cfa.specs.declared.variables.Lent.{Lent as OneLent};
ghost use Rattle.cfa.specs.Names.{visible};
ghost use Rattle.cfa.specs.Rules.{cell_count};
ghost use Rattle.cfa.specs.Needs.{AreNeeds, end_in_globals, end_in_frame, lent_of};
ghost use Rattle.cfa.specs.Graph.{lent_fits, variable_fits, global_fits};

use crate::name_tree::{self, NameTree};
use crate::parts::{Variable, VariablePlace};
use crate::rules::FunctionRoom;
use c_values::is_kind;
use containers::chains::{Chain, ChainIter};
use fq_core::Name;
use std::alloc::{AllocError, Global};
use std::fmt;
use std::marker::Model;
use std::rc::Rc;

/// An array of the caller's that a variable names: the number of the parameter, and the length that the variable has.
#[derive(Clone, Copy, Debug)]
struct Lent {
    parameter: u32,
    length: Option<u32>,
}

/// What all variables of a list ask of the cells that they name.
#[derive(Debug, Drop)]
struct Needs {
    /// Each is of a kind.
    kinds: bool,
    /// How many cells of globals there must be, and how many of a frame.
    globals: u64,
    cells: u64,
    lent: Chain<Lent>,
}

/// Variables, the innermost first, which contracts see as a list. What is put before others shares them. Whether all of
/// them fit, and what a name stands for, is told without going over them.
#[derive(Drop)]
pub struct Variables {
    list: Chain<Variable>,
    needs: Needs,
    by_name: Option<Rc<NameTree>>,
}

impl Model for Variables {
    ghost use Rattle.std.specs.Prelude.{List};
    ghost use Rattle.cfa.specs.declared.parts.Variable.{Variable};
    ghost use Rattle.cfa.specs.Names.{SeesAs};
    ghost use Rattle.cfa.specs.NameTree.{in_part};
    ghost use Rattle.cfa.specs.Needs.{AreNeeds};

    ghost Value = { List Variable };

    ghost view = { λ it. it.list };

    ghost invariant = { λ it. AreNeeds it.list it.needs × SeesAs it.list (in_part it.by_name) };
}

/// How many cells a variable takes.
fn cell_count(length: Option<u32>) -> u64
    ensures value { result ≡ cell_count length }
    ensures small { result < 2 ^ 32 }
{
    match length {
        None => 1,
        Some(length) => length as u64,
    }
}

fn end_in_globals(variable: &Variable) -> u64
    ensures { result ≡ end_in_globals variable.now.length variable.now.place }
{
    match variable.place {
        VariablePlace::Global(first) => first as u64 + cell_count(variable.length),
        VariablePlace::Local(_) | VariablePlace::Lent(_) => 0,
    }
}

fn end_in_frame(variable: &Variable) -> u64
    ensures { result ≡ end_in_frame variable.now.length variable.now.place }
{
    match variable.place {
        VariablePlace::Local(first) => first as u64 + cell_count(variable.length),
        VariablePlace::Global(_) | VariablePlace::Lent(_) => 0,
    }
}

fn lent_before(
    alloc: Global,
    variable: &Variable,
    lent: Chain<Lent>,
) -> Result<Chain<Lent>, AllocError>
    ensures { IfOk result (λ all. all ≡ lent_of variable.now.length variable.now.place ++ lent) }
{
    match variable.place {
        VariablePlace::Lent(parameter) => {
            let length = variable.length;
            Chain::with(alloc, Lent { parameter, length }, lent)
        }
        VariablePlace::Global(_) | VariablePlace::Local(_) => Ok(lent),
    }
}

/// The greater of two ends.
fn furthest(a: u64, b: u64) -> u64
    ensures { (n : ℕ) → nat_le result n ≡ (nat_le a n && nat_le b n) }
{
    if a < b { b } else { a }
}

/// The needs of a variable and of others.
fn with_needs_of(alloc: Global, variable: &Variable, others: Needs) -> Result<Needs, AllocError>
    ensures { IfOk result (λ needs. (list : List OneVariable) → AreNeeds list others → AreNeeds (variable.now ∷ list) needs) }
{
    let Needs {
        kinds,
        globals,
        cells,
        lent,
    } = others;
    Ok(Needs {
        kinds: is_kind(variable.kind) && kinds,
        globals: furthest(end_in_globals(variable), globals),
        cells: furthest(end_in_frame(variable), cells),
        lent: lent_before(alloc, variable, lent)?,
    })
}

fn lent_fits(room: &FunctionRoom<'_>, lent: &Lent) -> bool
    ensures { result ≡ lent_fits room.now lent.now.parameter lent.now.length }
{
    match lent.length {
        None => false,
        Some(length) => room.has_length(lent.parameter, length),
    }
}

fn all_lent_fit(room: &FunctionRoom<'_>, lent: &Chain<Lent>) -> bool
    ensures { result ≡ list_all (λ (l : OneLent). lent_fits room.now l.parameter l.length) lent.now }
{
    lent.iter().all(|lent| lent_fits(room, lent))
}

impl Variables {
    /// No variables.
    pub fn new() -> Variables
        ensures { result ≡ [] }
    {
        Variables {
            list: Chain::new(),
            needs: Needs {
                kinds: true,
                globals: 0,
                cells: 0,
                lent: Chain::new(),
            },
            by_name: None,
        }
    }

    /// A variable before all of others, which are shared.
    pub fn with(alloc: Global, first: Variable, others: Variables) -> Result<Variables, AllocError>
        ensures { IfOk result (λ variables. variables ≡ first ∷ others) }
    {
        let Variables {
            list,
            needs,
            by_name,
        } = others;
        let needs = with_needs_of(alloc, &first, needs)?;
        let by_name = name_tree::with(alloc, &first, &by_name)?;
        let list = Chain::with(alloc, first, list)?;
        Ok(Variables {
            list,
            needs,
            by_name,
        })
    }

    /// The same variables, all of them shared. It fails only where there are too many copies to be counted.
    pub fn share(&self) -> Result<Variables, AllocError>
        ensures { IfOk result (λ variables. variables ≡ self.now) }
    {
        Ok(Variables {
            list: self.list.share()?,
            needs: Needs {
                kinds: self.needs.kinds,
                globals: self.needs.globals,
                cells: self.needs.cells,
                lent: self.needs.lent.share()?,
            },
            by_name: name_tree::shared(&self.by_name)?,
        })
    }

    /// What a name stands for among the variables: the innermost of that name. It goes over few of them.
    pub fn find(&self, name: &Name) -> Option<&Variable>
        ensures { option_copied result ≡ visible name.now self.now }
    {
        name_tree::find(&self.by_name, name.bytes())
    }

    /// The variables, one after another.
    pub fn iter(&self) -> ChainIter<'_, Variable>
        ensures { result ≡ self.now }
    {
        self.list.iter()
    }

    /// Whether each is of a kind, and each global lies within so many cells of globals.
    pub(crate) fn are_within(&self, globals: usize) -> bool
        ensures { result ≡ list_all (λ (v : OneVariable). is_kind v.kind && global_fits globals v.length v.place) self.now }
    {
        self.needs.kinds && self.needs.globals <= globals as u64
    }

    /// Whether a function has room for each of them.
    pub(crate) fn fit_in(&self, room: &FunctionRoom<'_>) -> bool
        ensures { result ≡ list_all (λ (v : OneVariable). variable_fits room.now v.length v.place) self.now }
    {
        room.has_cells(self.needs.globals, self.needs.cells) && all_lent_fit(room, &self.needs.lent)
    }
}

impl fmt::Debug for Variables {
    fn fmt<W: fmt::Write>(&self, f: &mut fmt::Formatter<W>) -> fmt::Result {
        write!(f, "{:?}", self.list)
    }
}
