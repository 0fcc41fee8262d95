// The typed trees of units.
use crate::statement::TypedStatement;
use c_values::Kind;
use cfa::{InputFunction, Variable};
use containers::Vector;
use fq_core::{Name, Span};

/// A variable of the file's scope, with the first value of each of its cells, as values of its kind.
#[derive(Debug, Drop)]
pub struct Global {
    pub variable: Variable,
    pub first: Vector<u64>,
}

/// A defined function (ISO/IEC 9899:2011, 6.9.1).
#[derive(Drop)]
pub struct TypedFunction {
    pub name: Name,
    /// The place of its first token.
    pub span: Span,
    /// The place of its closing brace.
    pub close: Span,
    /// None for `void`.
    pub result: Option<Kind>,
    /// An integer lies in the frame's cell of its place, and an array is one of those that are lent.
    pub parameters: Vector<Variable>,
    /// How many cells a frame has: that of the result, those of the integer parameters, of locals and their elements
    /// in the order of their declarations, and of each call, `&&`, `||`, `?:` and `switch` of the body in the order of
    /// their first tokens.
    pub cells: u32,
    pub body: Vector<TypedStatement>,
}

/// A translation unit (6.9).
#[derive(Drop)]
pub struct Typed {
    pub globals: Vector<Global>,
    /// In the order of the source: a call names its function by the place here.
    pub functions: Vector<TypedFunction>,
    /// The functions that are declared and not defined, take no parameters and give an integer, in the order of their
    /// first declarations.
    pub inputs: Vector<InputFunction>,
    /// The names of all functions that are declared, in the order of their first declarations.
    pub declared: Vector<Name>,
}
