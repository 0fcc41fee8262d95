// The trees of filters.
use containers::{Boxed, Vector};
use fq_core::{Name, StatementKind};

/// A filter, which makes a target graph out of a target graph.
#[cycle(filter_tree)]
pub struct Filter {
    /// The column of its first token.
    pub column: u32,
    pub form: FilterForm,
}

// A function of its own, so that what holds filters doesn't drop each form in place.
impl Drop for Filter {
    #[cycle(filter_drop)]
    fn drop(self) {
        let Filter {
            column: _column,
            form: _form,
        } = self;
    }
}

/// What a filter keeps. Each keeps edges by a property of theirs, but for the operators at the end.
#[cycle(filter_tree)]
#[derive(Drop)]
pub enum FilterForm {
    /// `ID`: all that is there.
    Id,
    /// `@FILE`: edges of this file.
    File(Name),
    /// `@LINE`: edges of this line of any file.
    Line(u32),
    /// `@FUNC`: edges of this function.
    Func(Name),
    /// `@LABEL`: edges with this label.
    Label(Name),
    /// `@CALL`: calls of this function.
    Call(Name),
    /// `@ENTRY`: edges that leave the entry of this function.
    Entry(Name),
    /// `@EXIT`: edges that lead to the exit of this function.
    Exit(Name),
    /// `@BASICBLOCKENTRY`: edges that begin a basic block.
    BasicBlockEntry,
    /// `@CONDITIONEDGE`: guards.
    ConditionEdge,
    /// `@CONDITIONGRAPH`: edges of a decision.
    ConditionGraph,
    /// `@DECISIONEDGE`: the outcomes of decisions.
    DecisionEdge,
    /// `@STMTTYPE`: edges of one of these kinds of statements.
    StatementTypes(Vector<StatementKind>),
    /// `@DEF`: edges that write a variable of this name.
    Writes(Name),
    /// `@USE`: edges that read a variable of this name.
    Reads(Name),
    /// `NOT`: edges that the filter doesn't keep.
    Not(Boxed<Filter>),
    /// `COMPLEMENT`: the same.
    Complement(Boxed<Filter>),
    /// `UNION`: what either keeps.
    Union(Boxed<Filter>, Boxed<Filter>),
    /// `INTERSECT`: what both keep.
    Intersect(Boxed<Filter>, Boxed<Filter>),
    /// `SETMINUS`: edges that the first keeps and the second doesn't.
    SetMinus(Boxed<Filter>, Boxed<Filter>),
    /// `COMPOSE`: what the first keeps of what the second keeps.
    Compose(Boxed<Filter>, Boxed<Filter>),
}
