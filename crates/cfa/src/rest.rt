// Whether the parts of a graph other than its edges meet their rules.
ghost use Rattle.std.specs.Prelude.{◌≡◌, ◌↔◌, length, slice_get, Some, IsTrue, IfOk};
ghost use Rattle.std.specs.List.{list_all};
ghost use Rattle.c_values.specs.Kind.{is_kind};
ghost use Rattle.cfa.specs.Each.{Each};
ghost use Rattle.cfa.specs.Graph.{room_of, IsNodeOf, NodeFits, FunctionFits, signature_fits, result_kind_fits, scope_fits, scope_fits_in, SeesFit, is_return, IsExit};

use crate::edge::{is_node_of, is_return};
use crate::parts::{Edge, Function, GraphParts, Node, Scope};
use crate::rules::FunctionRoom;
use c_values::{Kind, is_kind};
use std::alloc::{AllocError, Global};

const MOST_CELLS: u32 = 16384;

fn node_fits(parts: &GraphParts, node: &Node) -> bool
    ensures { IsTrue result ↔ NodeFits parts.now node.now }
{
    (node.function as usize) < parts.functions.len()
        && (node.file as usize) < parts.files.len()
        && (node.scope as usize) < parts.scopes.len()
}

pub(crate) fn nodes_fit(parts: &GraphParts) -> bool
    ensures { IsTrue result ↔ Each parts.now.nodes (λ i n. NodeFits parts.now n) }
{
    for node in parts.nodes.iter() {
        if !node_fits(parts, node) {
            return false;
        }
    }
    true
}

fn are_kinds(kinds: &[Kind]) -> bool
    ensures { result ≡ list_all is_kind kinds.now }
{
    kinds.iter().all(|kind| is_kind(*kind))
}

fn result_kind_fits(kind: Option<Kind>) -> bool
    ensures { result ≡ result_kind_fits kind }
{
    match kind {
        None => true,
        Some(kind) => is_kind(kind),
    }
}

fn signature_fits(function: &Function) -> bool
    ensures { result ≡ signature_fits function.now }
{
    are_kinds(&function.parameters) && result_kind_fits(function.result)
}

fn function_fits(parts: &GraphParts, at: usize, function: &Function) -> bool
    ensures { IsTrue result ↔ FunctionFits parts.now at function.now }
{
    signature_fits(function)
        && is_node_of(parts, at, function.entry)
        && is_node_of(parts, at, function.exit)
        && function.parameters.len() < function.cells as usize
        && function.cells <= MOST_CELLS
}

pub(crate) fn functions_fit(parts: &GraphParts) -> bool
    ensures { IsTrue result ↔ Each parts.now.functions (FunctionFits parts.now) }
{
    for (i, function) in parts.functions.iter().enumerate() {
        if !function_fits(parts, i, function) {
            return false;
        }
    }
    true
}

pub(crate) fn inputs_fit(parts: &GraphParts) -> bool
    ensures { IsTrue result ↔ Each parts.now.inputs (λ i input. IsTrue (is_kind input.result)) }
{
    for input in parts.inputs.iter() {
        if !is_kind(input.result) {
            return false;
        }
    }
    true
}

pub(crate) fn global_kinds_fit(parts: &GraphParts) -> bool
    ensures { IsTrue result ↔ Each parts.now.globals (λ i global. IsTrue (is_kind global.0)) }
{
    for global in parts.globals.iter() {
        if !is_kind(global.0) {
            return false;
        }
    }
    true
}

fn scope_fits(parts: &GraphParts, scope: &Scope) -> bool
    ensures { result ≡ scope_fits (length parts.now.globals) scope.now }
{
    scope.variables.are_within(parts.globals.len())
}

pub(crate) fn scopes_fit(parts: &GraphParts) -> bool
    ensures { IsTrue result ↔ Each parts.now.scopes (λ i s. IsTrue (scope_fits (length parts.now.globals) s)) }
{
    for scope in parts.scopes.iter() {
        if !scope_fits(parts, scope) {
            return false;
        }
    }
    true
}

fn scope_fits_in(room: &FunctionRoom<'_>, scope: &Scope) -> bool
    ensures { result ≡ scope_fits_in room.now scope.now }
{
    scope.variables.fit_in(room)
}

fn sees_fit(parts: &GraphParts, function: u32, scope: u32) -> bool
    ensures { IsTrue result ↔ SeesFit parts.now function scope }
{
    let Some(function) = parts.functions.get(function as usize) else {
        return true;
    };
    let Some(scope) = parts.scopes.get(scope as usize) else {
        return true;
    };
    scope_fits_in(&FunctionRoom::of(parts, function), scope)
}

// Whether each node's function has room for what the node sees. Nodes of one function that share a scope and follow one
// another are tested once.
pub(crate) fn variables_fit(alloc: Global, parts: &GraphParts) -> Result<bool, AllocError>
    requires { Each parts.now.nodes (λ i n. NodeFits parts.now n) }
    ensures { IfOk result (λ fit. IsTrue fit ↔ Each parts.now.nodes (λ i n. SeesFit parts.now n.function n.scope)) }
{
    let mut tested: Vec<Option<u32>> = vec![in alloc; None; parts.scopes.len()]?;
    for node in parts.nodes.iter() {
        let scope = node.scope as usize;
        if tested[scope] != Some(node.function) {
            if !sees_fit(parts, node.function, node.scope) {
                return Ok(false);
            }
            tested[scope] = Some(node.function);
        }
    }
    Ok(true)
}

// Whether a node is the exit of a function.
pub(crate) fn is_exit(parts: &GraphParts, node: usize) -> bool
    requires { Each parts.now.functions (FunctionFits parts.now) }
    ensures { IsTrue result ↔ IsExit parts.now node }
{
    match parts.nodes.get(node) {
        None => false,
        Some(n) => match parts.functions.get(n.function as usize) {
            None => false,
            Some(function) => function.exit as usize == node,
        },
    }
}

fn leaves_well(parts: &GraphParts, edge: &Edge) -> bool
    requires { Each parts.now.functions (FunctionFits parts.now) }
    ensures { IsTrue result ↔ (IsExit parts.now edge.now.source → IsTrue (is_return edge.now.operation)) }
{
    is_return(&edge.operation) || !is_exit(parts, edge.source as usize)
}

pub(crate) fn returns_fit(parts: &GraphParts) -> bool
    requires { Each parts.now.functions (FunctionFits parts.now) }
    ensures { IsTrue result ↔ Each parts.now.edges (λ i e. IsExit parts.now e.source → IsTrue (is_return e.operation)) }
{
    for edge in parts.edges.iter() {
        if !leaves_well(parts, edge) {
            return false;
        }
    }
    true
}
