// Edges.
ghost use Rattle.std.specs.Prelude.{◌≡◌, [], ◌∷◌, map, IfOk, IfErr, OnOk};
ghost use Rattle.std.specs.Option.{is_some};
ghost use Rattle.c_lower_rules.specs.graph_of.Builder.{after};
ghost use Rattle.c_lower_rules.specs.graph_of.Edges.{edge_of, step, skip, label_edge, enter_edge, back_edge, put, decides, guard, guards};
ghost use Rattle.c_lower.specs.Stopping.{IsStop};

use crate::make::new_edge;
use crate::stop::Stop;
use c_lower_rules::graph_of::{Around, Parts};
use cfa::{CellPlace, Edge, Expr, Operation};
use containers::{TryClone, Vector};
use fq_core::{Name, Span};
use std::alloc::Global;

/// An edge of the innermost statement.
pub(crate) fn edge_of(
    around: &Around,
    operation: Operation,
    writes: Vector<Name>,
    reads: Vector<Name>,
    a: u32,
    z: u32,
) -> Edge
    ensures { result ≡ edge_of around.now operation writes reads a z }
{
    Edge {
        source: a,
        target: z,
        function: around.function,
        operation,
        span: around.span,
        statement: around.statement,
        decision: around.decision.is_some(),
        outcome: false,
        label: None,
        writes,
        reads,
        enter: false,
        back: false,
    }
}

/// A new edge of the innermost statement.
pub(crate) fn step(
    around: &Around,
    operation: Operation,
    writes: Vector<Name>,
    reads: Vector<Name>,
    a: u32,
    z: u32,
    parts: &mut Parts,
) -> Result<(), Stop>
    ensures made { OnOk result (parts.new ≡ after (step around.now operation writes reads a z) parts.old) }
    ensures err { IfErr result (λ stop. IsStop stop (after (step around.now operation writes reads a z) parts.old)) }
{
    new_edge(edge_of(around, operation, writes, reads, a, z), parts)
}

fn skip_edge(alloc: Global, around: &Around, a: u32, z: u32) -> Edge
    ensures { result ≡ edge_of around.now Operation.Skip [] [] a z }
{
    edge_of(
        around,
        Operation::Skip,
        Vector::new(alloc),
        Vector::new(alloc),
        a,
        z,
    )
}

/// A new edge that does nothing.
pub(crate) fn skip(
    alloc: Global,
    around: &Around,
    a: u32,
    z: u32,
    parts: &mut Parts,
) -> Result<(), Stop>
    ensures made { OnOk result (parts.new ≡ after (skip around.now a z) parts.old) }
    ensures err { IfErr result (λ stop. IsStop stop (after (skip around.now a z) parts.old)) }
{
    new_edge(skip_edge(alloc, around, a, z), parts)
}

/// The edge behind a label.
pub(crate) fn label_edge(
    alloc: Global,
    around: &Around,
    name: &Name,
    a: u32,
    z: u32,
    parts: &mut Parts,
) -> Result<(), Stop>
    ensures made { OnOk result (parts.new ≡ after (label_edge around.now name.now a z) parts.old) }
    ensures err { IfErr result (λ stop. IsStop stop (after (label_edge around.now name.now a z) parts.old)) }
{
    let mut edge = skip_edge(alloc, around, a, z);
    edge.label = Some(name.try_clone(alloc)?);
    new_edge(edge, parts)
}

/// The edge that enters a loop.
pub(crate) fn enter_edge(
    alloc: Global,
    around: &Around,
    a: u32,
    z: u32,
    parts: &mut Parts,
) -> Result<(), Stop>
    ensures made { OnOk result (parts.new ≡ after (enter_edge around.now a z) parts.old) }
    ensures err { IfErr result (λ stop. IsStop stop (after (enter_edge around.now a z) parts.old)) }
{
    let mut edge = skip_edge(alloc, around, a, z);
    edge.enter = true;
    new_edge(edge, parts)
}

/// The edge that leads back to a loop's head.
pub(crate) fn back_edge(
    alloc: Global,
    around: &Around,
    a: u32,
    z: u32,
    parts: &mut Parts,
) -> Result<(), Stop>
    ensures made { OnOk result (parts.new ≡ after (back_edge around.now a z) parts.old) }
    ensures err { IfErr result (λ stop. IsStop stop (after (back_edge around.now a z) parts.old)) }
{
    let mut edge = skip_edge(alloc, around, a, z);
    edge.back = true;
    new_edge(edge, parts)
}

/// A value is put into a temporary.
pub(crate) fn put(
    alloc: Global,
    around: &Around,
    cell: u32,
    value: Expr,
    reads: Vector<Name>,
    a: u32,
    z: u32,
    parts: &mut Parts,
) -> Result<(), Stop>
    ensures made { OnOk result (parts.new ≡ after (put around.now cell value reads a z) parts.old) }
    ensures err { IfErr result (λ stop. IsStop stop (after (put around.now cell value reads a z) parts.old)) }
{
    let assign = Operation::Assign {
        place: CellPlace::Local(cell),
        value,
    };
    step(around, assign, Vector::new(alloc), reads, a, z, parts)
}

fn decides(decision: Option<(u32, u32)>, z: u32) -> bool
    ensures { result ≡ decides decision z }
{
    match decision {
        None => false,
        Some((t, f)) => z == t || z == f,
    }
}

fn guard(
    alloc: Global,
    around: &Around,
    span: Span,
    test: Expr,
    reads: Vector<Name>,
    truth: bool,
    a: u32,
    z: u32,
    parts: &mut Parts,
) -> Result<(), Stop>
    ensures made { OnOk result (parts.new ≡ after (guard around.now span test reads truth a z) parts.old) }
    ensures err { IfErr result (λ stop. IsStop stop (after (guard around.now span test reads truth a z) parts.old)) }
{
    let operation = Operation::Guard { test, truth };
    let mut edge = edge_of(around, operation, Vector::new(alloc), reads, a, z);
    edge.span = span;
    edge.outcome = decides(around.decision, z);
    new_edge(edge, parts)
}

/// The two guards of a test, that of truth first.
#[tactic(auto, using(crate::proofs::EdgeLaws::edge_laws))]
pub(crate) fn guards(
    alloc: Global,
    around: &Around,
    span: Span,
    test: Expr,
    reads: Vector<Name>,
    a: u32,
    t: u32,
    f: u32,
    parts: &mut Parts,
) -> Result<(), Stop>
    ensures made { OnOk result (parts.new ≡ after (guards around.now span test reads a t f) parts.old) }
    ensures err { IfErr result (λ stop. IsStop stop (after (guards around.now span test reads a t f) parts.old)) }
{
    let same_test = test.try_clone(alloc)?;
    let same_reads = reads.try_clone(alloc)?;
    guard(
        alloc, around, span, same_test, same_reads, true, a, t, parts,
    )?;
    guard(alloc, around, span, test, reads, false, a, f, parts)
}
