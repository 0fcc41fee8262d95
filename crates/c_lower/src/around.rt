// What things are made within.
ghost use Rattle.std.specs.Prelude.{◌≡◌, ◌∷◌, IfOk};
ghost use Rattle.c_lower_rules.specs.graph_of.Edges.{stated, inside, within, deciding};

use c_lower_rules::graph_of::Around;
use cfa::{Scope, StatementKind};
use fq_core::Span;
use std::alloc::AllocError;

pub(crate) fn shared(scope: &Scope) -> Result<Scope, AllocError>
    ensures { IfOk result (λ copy. copy ≡ scope.now) }
{
    Ok(Scope {
        variables: scope.variables.share()?,
    })
}

pub(crate) fn copied(around: &Around) -> Result<Around, AllocError>
    ensures { IfOk result (λ copy. copy ≡ around.now) }
{
    Ok(Around {
        function: around.function,
        scope: around.scope,
        sees: shared(&around.sees)?,
        depth: around.depth,
        exit: around.exit,
        on_break: around.on_break,
        on_continue: around.on_continue,
        span: around.span,
        statement: around.statement,
        decision: around.decision,
    })
}

/// Within a statement.
pub(crate) fn stated(around: &Around, span: Span, kind: StatementKind) -> Result<Around, AllocError>
    ensures { IfOk result (λ inner. inner ≡ stated around.now span kind) }
{
    let mut inner = copied(around)?;
    inner.span = span;
    inner.statement = kind;
    Ok(inner)
}

/// Within a loop.
pub(crate) fn inside(around: &Around, on_break: u32, on_continue: u32) -> Result<Around, AllocError>
    ensures { IfOk result (λ inner. inner ≡ inside around.now on_break on_continue) }
{
    if around.depth == u32::MAX {
        return Err(AllocError);
    }
    let mut inner = copied(around)?;
    inner.depth = around.depth + 1;
    inner.on_break = on_break;
    inner.on_continue = on_continue;
    Ok(inner)
}

/// Within a `switch`.
pub(crate) fn within(around: &Around, on_break: u32) -> Result<Around, AllocError>
    ensures { IfOk result (λ inner. inner ≡ within around.now on_break) }
{
    let mut inner = copied(around)?;
    inner.on_break = on_break;
    Ok(inner)
}

/// Within the condition of a decision.
pub(crate) fn deciding(around: &Around, t: u32, f: u32) -> Result<Around, AllocError>
    ensures { IfOk result (λ inner. inner ≡ deciding around.now t f) }
{
    let mut inner = copied(around)?;
    inner.decision = Some((t, f));
    Ok(inner)
}
