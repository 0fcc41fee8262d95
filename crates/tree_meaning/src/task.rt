// What is still to be done, in small steps.
use crate::scene::Scene;
use crate::way::Way;
use c_typed_trees::{TypedCall, TypedExpr, TypedGroup, TypedPlace, TypedStatement};
use c_values::{BinaryOp, Kind};
use containers::{Boxed, Vector};

/// One thing that is to be done. It takes what the machine holds, and leaves there what comes next.
#[derive(Drop)]
pub(crate) enum Task<'a> {
    /// A part of an evaluation.
    Value(ValueTask<'a>),
    /// A part of what a statement does.
    Statement(StatementTask<'a>),
    /// A part of what a `while` or a `for` does.
    Loop(Loop<'a>, LoopStage),
    /// A part of what a `do` does.
    DoLoop(DoLoop<'a>, DoStage),
}

/// A part of an evaluation. "The values" are those of outermost calls, `&&`, `||` and `?:` so far, "the value" is the last.
#[derive(Drop)]
pub(crate) enum ValueTask<'a> {
    /// The value of an expression.
    Evaluate(&'a TypedExpr),
    /// What an expression does first: its outermost parts put their values behind those that are there.
    First(&'a TypedExpr),
    /// What the index of a place does first.
    FirstInPlace(&'a TypedPlace),
    /// The rest of an expression by the values; then those of the expression around it are put back.
    Rest(&'a TypedExpr, Vector<u64>),
    /// The value is put behind the values.
    Keep,
    /// The value of an `&&`, `||`, `?:` or call.
    Part(&'a TypedExpr),
    /// An `&&` behind its first operand.
    AndThen(&'a TypedExpr),
    /// An `||` behind its first operand.
    OrElse(&'a TypedExpr),
    /// A `?:` behind its first operand.
    Choose(&'a TypedExpr, &'a TypedExpr),
    /// 1 in place of a value other than 0.
    Truth,
    /// The value of a call.
    Call(&'a TypedCall),
    /// What expressions do first, one after another.
    Firsts(&'a [TypedExpr]),
    /// A call of a function, by its number, behind the first parts of its words.
    Begin(&'a TypedCall, u32, Vector<u64>),
    /// A function is done, and its caller goes on.
    Leave(Scene<'a>, Vector<u64>, Way),
}

/// A part of what a statement does.
#[derive(Drop)]
pub(crate) enum StatementTask<'a> {
    /// A statement.
    Do(&'a TypedStatement),
    /// Statements, as long as each goes on.
    Block(&'a [TypedStatement]),
    /// The value is put into a cell.
    Put(usize),
    /// Values are put into cells in a row.
    Fill(usize, &'a [TypedExpr]),
    /// An assignment behind the first part of its place. The values of the expression around it are put back.
    Assign(Assignment<'a>, AssignStage, Vector<u64>),
    /// A statement that is an expression is done.
    GoOn,
    /// The arms of an `if`, and its last `else`.
    Arms(&'a [(TypedExpr, TypedStatement)], &'a Option<Boxed<TypedStatement>>, ArmStage),
    /// A `return` behind its value.
    ReturnValue,
    /// An assertion behind its value.
    Assert,
    /// An assumption behind its value.
    Assume,
    /// The groups of a `switch`.
    Groups(&'a [TypedGroup], GroupStage),
    /// A `switch` behind its groups.
    AfterSwitch,
}

/// An assignment.
#[derive(Clone, Copy)]
pub(crate) struct Assignment<'a> {
    pub(crate) place: &'a TypedPlace,
    pub(crate) operator: Option<(BinaryOp, Kind)>,
    pub(crate) value: &'a TypedExpr,
}

/// How far an assignment is.
#[derive(Drop)]
pub(crate) enum AssignStage {
    /// Its place has done what it does first.
    Value,
    /// Its value too. The place had these values.
    Put(Vector<u64>),
}

/// How far the arms of an `if` are.
#[derive(Clone, Copy)]
pub(crate) enum ArmStage {
    /// The first condition is to be evaluated.
    Test,
    /// It has been.
    Choose,
}

/// How far the groups of a `switch` are.
#[derive(Clone, Copy)]
pub(crate) enum GroupStage {
    /// The one with the value's label is to be found.
    Find,
    /// They are done, as long as each goes on.
    Run,
}

/// A `while`, or a `for` behind its first part.
#[derive(Clone, Copy)]
pub(crate) struct Loop<'a> {
    pub(crate) test: LoopTest<'a>,
    pub(crate) step: LoopStep<'a>,
    pub(crate) body: &'a TypedStatement,
}

/// The condition of a loop.
#[derive(Clone, Copy)]
pub(crate) enum LoopTest<'a> {
    /// A `for` without one.
    Always,
    When(&'a TypedExpr),
}

/// What is done behind the body of a loop.
#[derive(Clone, Copy)]
pub(crate) enum LoopStep<'a> {
    Nothing,
    Do(&'a TypedStatement),
}

/// How far a loop is. The numbers say how many passes may begin behind this one; there are never more than turns.
#[derive(Clone, Copy)]
pub(crate) enum LoopStage {
    /// Its first part is done.
    Begin,
    /// A pass is to begin.
    Pass(u64),
    /// It has its condition's value.
    Tested(u64),
    /// Its body is done.
    Stepped(u64),
    /// Its step is done.
    Again(u64),
}

/// A `do`.
#[derive(Clone, Copy)]
pub(crate) struct DoLoop<'a> {
    pub(crate) body: &'a TypedStatement,
    pub(crate) test: &'a TypedExpr,
}

/// How far a `do` is. The numbers are as those of a loop.
#[derive(Clone, Copy)]
pub(crate) enum DoStage {
    /// A pass is to begin.
    Pass(u64),
    /// Its body is done.
    Test(u64),
    /// It has its condition's value.
    Tested(u64),
}
