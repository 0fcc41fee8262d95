// The parts of a control flow automaton.
use crate::expr::{ArrayPlace, CellPlace, Expr};
use crate::variables::Variables;
use c_values::Kind;
use containers::{TryClone, Vector};
use fq_core::{Name, Span, StatementKind};
use std::alloc::{AllocError, Global};

/// What is done along an edge.
pub enum Operation {
    Skip,
    /// Puts a value into a cell (ISO/IEC 9899:2011, 6.5.16.1).
    Assign {
        place: CellPlace,
        value: Expr,
    },
    /// Sets each cell of an array to 0.
    Clear {
        array: ArrayPlace,
        length: u32,
    },
    /// Is taken where the test is not 0, or, with `truth` false, where it is 0.
    Guard {
        test: Expr,
        truth: bool,
    },
    /// Calls a function, by its number, with a word for each parameter that is an integer and an array for each that
    /// is one (6.5.2.2).
    Call {
        callee: u32,
        words: Vector<Expr>,
        arrays: Vector<ArrayPlace>,
    },
    /// Returns from the call of an edge, and puts the result into a cell of the caller or a global (6.8.6.4).
    Return {
        call: u32,
        dest: Option<CellPlace>,
    },
    /// Takes the next answer of an input function, by its number.
    Answer {
        input: u32,
        dest: Option<CellPlace>,
    },
    Assert(Expr),
    Assume(Expr),
}

// A function of its own, so that what holds operations doesn't drop each in place.
impl Drop for Operation {
    fn drop(self) {
        match self {
            Operation::Skip => {}
            Operation::Assign {
                place: _place,
                value: _value,
            } => {}
            Operation::Clear {
                array: _,
                length: _,
            } => {}
            Operation::Guard {
                test: _test,
                truth: _,
            } => {}
            Operation::Call {
                callee: _,
                words: _words,
                arrays: _arrays,
            } => {}
            Operation::Return {
                call: _,
                dest: _dest,
            } => {}
            Operation::Answer {
                input: _,
                dest: _dest,
            } => {}
            Operation::Assert(_test) => {}
            Operation::Assume(_test) => {}
        }
    }
}

/// A place of control.
#[derive(Clone, Copy, Debug, PartialEq, Eq)]
pub struct Node {
    /// The number of the function that it belongs to.
    pub function: u32,
    /// The place of its file among the files, from 0.
    pub file: u32,
    /// Its line, from 1.
    pub line: u32,
    /// The number of its scope.
    pub scope: u32,
    /// How many loops it lies in.
    pub depth: u32,
}

/// A step of control from one node to another.
#[derive(Drop)]
pub struct Edge {
    pub source: u32,
    pub target: u32,
    /// The number of the function that it belongs to, the caller's for a call and its return.
    pub function: u32,
    pub operation: Operation,
    pub span: Span,
    pub statement: StatementKind,
    /// It is made by the condition of a decision.
    pub decision: bool,
    /// It is a guard that decides a decision.
    pub outcome: bool,
    pub label: Option<Name>,
    /// The names of the variables that the operation writes.
    pub writes: Vector<Name>,
    /// The names of the variables that the operation reads.
    pub reads: Vector<Name>,
    /// It enters a loop, whose counter begins at 0.
    pub enter: bool,
    /// It is the back edge of a loop, and adds 1 to the loop's counter.
    pub back: bool,
}

/// A defined function.
#[derive(Drop)]
pub struct Function {
    pub name: Name,
    pub entry: u32,
    pub exit: u32,
    /// The kinds of the parameters that are integers, in order.
    pub parameters: Vector<Kind>,
    /// The lengths of the parameters that are arrays, in order.
    pub arrays: Vector<u32>,
    /// None for void.
    pub result: Option<Kind>,
    /// How many cells a frame has: the result, the integer parameters, then locals and temporaries.
    pub cells: u32,
}

/// A function that is declared and not defined, takes no parameters and gives an integer.
#[derive(Debug, Drop)]
pub struct InputFunction {
    pub name: Name,
    pub result: Kind,
}

/// Where a variable lies: the place of its first cell, from 0, or that of an array parameter among the function's.
#[derive(Clone, Copy, Debug, PartialEq, Eq)]
pub enum VariablePlace {
    Global(u32),
    Local(u32),
    Lent(u32),
}

/// A variable that is in scope somewhere.
#[derive(Debug, Drop)]
pub struct Variable {
    pub name: Name,
    pub kind: Kind,
    /// How many elements an array has, and none for an integer.
    pub length: Option<u32>,
    pub place: VariablePlace,
}

impl TryClone for Variable {
    fn try_clone(&self, alloc: Global) -> Result<Variable, AllocError> {
        Ok(Variable {
            name: self.name.try_clone(alloc)?,
            kind: self.kind,
            length: self.length,
            place: self.place,
        })
    }
}

/// The variables that a node sees, the innermost first (6.2.1). A scope shares those that an outer one sees too.
#[derive(Debug, Drop)]
pub struct Scope {
    pub variables: Variables,
}

/// All that a control flow automaton is made of. Nodes, edges, functions, input functions and scopes are numbered by
/// their places in the lists, from 0.
#[derive(Drop)]
pub struct GraphParts {
    pub files: Vector<Name>,
    pub nodes: Vector<Node>,
    pub edges: Vector<Edge>,
    pub functions: Vector<Function>,
    /// The names of the functions that are declared.
    pub declared: Vector<Name>,
    pub inputs: Vector<InputFunction>,
    pub scopes: Vector<Scope>,
    /// The kind and the first value of each cell of the globals.
    pub globals: Vector<(Kind, u64)>,
}
