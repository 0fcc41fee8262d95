// The labels of a `switch`.
ghost use Rattle.std.specs.Prelude.{◌≡◌, ◌+◌, ◌<◌, ◌++◌, true, false, map, length, slice_get, MatchOption, IfOk, IfErr, OnOk};
ghost use Rattle.c_lower_rules.specs.graph_of.Builder.{after};
ghost use Rattle.c_lower_rules.specs.graph_of.Edges.{node_here};
ghost use Rattle.c_lower_rules.specs.graph_of.Switch.{cases_in, cases_from, has_default, default_from, case_guard, cases_row, group_nodes};
ghost use Rattle.c_lower_rules.specs.graph_of.Table.{group_of};
ghost use Rattle.c_lower.specs.Cases.{case_of};
ghost use Rattle.c_lower.specs.Stopping.{IsStop};

use crate::edges::{edge_of, skip};
use crate::make::{new_edge, new_node};
use crate::operands::temporary;
use crate::stop::Stop;
use c_lower_rules::graph_of::{Around, Operand, Parts};
use c_typed_trees::TypedGroup;
use c_values::{BinaryOp, Kind};
use cfa::{Expr, Operation};
use containers::{Boxed, Vector};
use fq_core::Span;
use std::alloc::{AllocError, Global};

/// A case label: the place of its word, its value, and the node of its group.
#[derive(Clone, Copy, Debug)]
pub(crate) struct CaseLabel {
    pub(crate) span: Span,
    pub(crate) value: u64,
    pub(crate) target: u32,
}

/// A node for each group.
#[tactic(auto, using(crate::proofs::LabelLaws::node_laws))]
pub(crate) fn group_nodes(
    around: &Around,
    groups: &[TypedGroup],
    parts: &mut Parts,
) -> Result<u32, Stop>
    ensures number { IfOk result (λ number. number ≡ length parts.old.nodes) }
    ensures room { IfOk result (λ number. number + length groups.now < 4294967296) }
    ensures made { OnOk result (parts.new ≡ after (group_nodes around.now (map group_of groups.now)) parts.old) }
    ensures memory { IfErr result (λ stop. stop ≡ Stop.Memory) }
{
    let first = parts.nodes.len();
    if first > u32::MAX as usize || groups.len() > u32::MAX as usize - first {
        return Err(Stop::Memory);
    }
    for _group in groups {
        new_node(around, around.span, parts)?;
    }
    Ok(first as u32)
}

/// Adds the case labels in a row of labels, which lead to a node.
fn cases_in(
    labels: &[(Span, Option<u64>)],
    g: u32,
    cases: &mut Vector<CaseLabel>,
) -> Result<(), AllocError>
    ensures { OnOk result (map case_of cases.new ≡ map case_of cases.old ++ cases_in g labels.now) }
{
    for label in labels {
        match label.1 {
            None => {}
            Some(value) => cases.push(CaseLabel {
                span: label.0,
                value,
                target: g,
            })?,
        }
    }
    Ok(())
}

/// The case labels of groups, where the first one has a node and each further one the next.
pub(crate) fn cases_from(
    alloc: Global,
    g: u32,
    groups: &[TypedGroup],
) -> Result<Vector<CaseLabel>, AllocError>
    requires { g + length groups.now < 4294967296 }
    ensures { IfOk result (λ cases. map case_of cases ≡ cases_from g (map group_of groups.now)) }
{
    let mut cases = Vector::new(alloc);
    for (i, group) in groups.iter().enumerate() {
        cases_in(&group.labels, g + i as u32, &mut cases)?;
    }
    Ok(cases)
}

fn has_default(labels: &[(Span, Option<u64>)]) -> bool
    ensures { result ≡ has_default labels.now }
{
    for label in labels {
        match label.1 {
            None => return true,
            Some(_) => {}
        }
    }
    false
}

/// The node of the default's group, or the end of the `switch` where there is no default.
pub(crate) fn default_from(g: u32, groups: &[TypedGroup], z: u32) -> u32
    requires { g + length groups.now < 4294967296 }
    ensures { result ≡ default_from g (map group_of groups.now) z }
{
    for (i, group) in groups.iter().enumerate() {
        if has_default(&group.labels) {
            return g + i as u32;
        }
    }
    z
}

/// A guard of equality with a label's value.
fn case_guard(
    alloc: Global,
    around: &Around,
    cell: u32,
    kind: Kind,
    case: CaseLabel,
    truth: bool,
    outcome: bool,
    a: u32,
    z: u32,
    parts: &mut Parts,
) -> Result<(), Stop>
    ensures made { OnOk result (parts.new ≡ after (case_guard around.now cell kind (case_of case) truth outcome a z) parts.old) }
    ensures err { IfErr result (λ stop. IsStop stop (after (case_guard around.now cell kind (case_of case) truth outcome a z) parts.old)) }
{
    let Operand { value, reads } = temporary(alloc, cell, kind);
    let test = Expr::Binary(
        BinaryOp::Equal,
        Boxed::new(alloc, value)?,
        Boxed::new(alloc, Expr::Constant(case.value, kind))?,
        kind,
    );
    let operation = Operation::Guard { test, truth };
    let mut edge = edge_of(around, operation, Vector::new(alloc), reads, a, z);
    edge.span = case.span;
    edge.decision = true;
    edge.outcome = outcome;
    new_edge(edge, parts)
}

/// Where a value that isn't a label's leads: to a new node before the next label, or to where no label leads; and whether
/// it is the latter.
fn next_label(
    around: &Around,
    cases: &[CaseLabel],
    i: usize,
    other: u32,
    parts: &mut Parts,
) -> Result<(u32, bool), Stop>
    requires { i < length cases.now }
    ensures next { IfOk result (λ r. MatchOption (slice_get cases.now (i + 1)) ((r.0 ≡ other) × (r.1 ≡ true) × (parts.new ≡ parts.old)) (λ _. (r.0 ≡ length parts.old.nodes) × (r.1 ≡ false) × (parts.new ≡ after (node_here around.now) parts.old))) }
    ensures memory { IfErr result (λ stop. stop ≡ Stop.Memory) }
{
    match cases.get(i + 1) {
        None => Ok((other, true)),
        Some(_) => {
            let number = new_node(around, around.span, parts)?;
            Ok((number, false))
        }
    }
}

/// The two guards of a label.
#[tactic(auto, using(crate::proofs::Stops::stop_grows))]
fn label_guards(
    alloc: Global,
    around: &Around,
    cell: u32,
    kind: Kind,
    case: CaseLabel,
    last: bool,
    a: u32,
    z: u32,
    parts: &mut Parts,
) -> Result<(), Stop>
    ensures made { OnOk result (parts.new ≡ after (case_guard around.now cell kind (case_of case) false last a z) (after (case_guard around.now cell kind (case_of case) true true a case.target) parts.old)) }
    ensures err { IfErr result (λ stop. IsStop stop (after (case_guard around.now cell kind (case_of case) false last a z) (after (case_guard around.now cell kind (case_of case) true true a case.target) parts.old))) }
{
    case_guard(
        alloc,
        around,
        cell,
        kind,
        case,
        true,
        true,
        a,
        case.target,
        parts,
    )?;
    case_guard(alloc, around, cell, kind, case, false, last, a, z, parts)
}

/// The labels, one after another.
#[tactic(auto, using(crate::proofs::LabelLaws::label_laws))]
pub(crate) fn cases_row(
    alloc: Global,
    around: &Around,
    cell: u32,
    kind: Kind,
    cases: &[CaseLabel],
    other: u32,
    c: u32,
    parts: &mut Parts,
) -> Result<(), Stop>
    ensures made { OnOk result (parts.new ≡ after (cases_row around.now cell kind (map case_of cases.now) other c) parts.old) }
    ensures err { IfErr result (λ stop. IsStop stop (after (cases_row around.now cell kind (map case_of cases.now) other c) parts.old)) }
{
    if cases.is_empty() {
        return skip(alloc, around, c, other, parts);
    }
    let mut here = c;
    for (i, case) in cases.iter().enumerate() {
        let (to, last) = next_label(around, cases, i, other, parts)?;
        label_guards(alloc, around, cell, kind, *case, last, here, to, parts)?;
        here = to;
    }
    Ok(())
}
