// Whether the edges of a graph's parts meet their rules.
ghost use Rattle.std.specs.Prelude.{◌≡◌, ◌↔◌, ◌<◌, ◌≤◌, ◌^◌, ◌+◌, length, slice_get, Some, IsTrue};
ghost use Rattle.std.specs.Option.{option_copied, MatchOption, IsSomeAnd, OnSome, IsSome};
ghost use Rattle.cfa.specs.Rules.{expr_fits};
ghost use Rattle.cfa.specs.Graph.{room_of, IsNodeOf, callee_of, returned_call, is_return, function_called, NumbersFit, SourceFits, TargetFits, dest_fits, arrays_fit, word_fits, words_fit, call_fits, operands_fit, PairFits, EdgeFits, EdgesFit, IsFirstIll};

use crate::expr::{ArrayPlace, CellPlace, Expr};
use crate::parts::{Edge, Function, GraphParts, Operation};
use crate::rules::{FunctionRoom, array_fits, checked_kind, has_kind, place_fits};
use c_values::Kind;

pub(crate) fn is_node_of(parts: &GraphParts, function: usize, node: u32) -> bool
    ensures { IsTrue result ↔ IsNodeOf parts.now function node }
{
    match parts.nodes.get(node as usize) {
        None => false,
        Some(n) => n.function as usize == function,
    }
}

fn callee_of(operation: &Operation) -> Option<u32>
    ensures { result ≡ callee_of operation.now }
{
    match operation {
        Operation::Call { callee, .. } => Some(*callee),
        _ => None,
    }
}

fn returned_call(operation: &Operation) -> Option<u32>
    ensures { result ≡ returned_call operation.now }
{
    match operation {
        Operation::Return { call, .. } => Some(*call),
        _ => None,
    }
}

pub(crate) fn is_return(operation: &Operation) -> bool
    ensures { result ≡ is_return operation.now }
{
    returned_call(operation).is_some()
}

fn function_called<'a>(parts: &'a GraphParts, call: u32) -> Option<&'a Function>
    ensures { option_copied result ≡ function_called parts.now call }
{
    match parts.edges.get(call as usize) {
        None => None,
        Some(edge) => match callee_of(&edge.operation) {
            None => None,
            Some(callee) => parts.functions.get(callee as usize),
        },
    }
}

fn numbers_fit(parts: &GraphParts, operation: &Operation) -> bool
    ensures { IsTrue result ↔ NumbersFit parts.now operation.now }
{
    match operation {
        Operation::Call { callee, .. } => (*callee as usize) < parts.functions.len(),
        Operation::Return { call, .. } => (*call as usize) < parts.edges.len(),
        Operation::Answer { input, .. } => (*input as usize) < parts.inputs.len(),
        _ => true,
    }
}

fn source_fits(parts: &GraphParts, function: u32, source: u32, operation: &Operation) -> bool
    ensures { IsTrue result ↔ SourceFits parts.now function source operation.now }
{
    match operation {
        Operation::Return { call, .. } => match function_called(parts, *call) {
            None => false,
            Some(callee) => source == callee.exit,
        },
        _ => is_node_of(parts, function as usize, source),
    }
}

fn target_fits(parts: &GraphParts, function: u32, target: u32, operation: &Operation) -> bool
    ensures { IsTrue result ↔ TargetFits parts.now function target operation.now }
{
    match operation {
        Operation::Call { callee, .. } => match parts.functions.get(*callee as usize) {
            None => false,
            Some(callee) => target == callee.entry,
        },
        _ => is_node_of(parts, function as usize, target),
    }
}

fn dest_fits(room: &FunctionRoom<'_>, dest: &Option<CellPlace>) -> bool
    ensures { result ≡ dest_fits room.now dest.now }
{
    match dest {
        None => true,
        Some(place) => place_fits(room, place),
    }
}

fn arrays_fit(room: &FunctionRoom<'_>, places: &[ArrayPlace], lengths: &[u32]) -> bool
    ensures { result ≡ arrays_fit room.now places.now lengths.now }
{
    if places.len() != lengths.len() {
        return false;
    }
    for i in 0..places.len() {
        if !array_fits(room, places[i], lengths[i]) {
            return false;
        }
    }
    true
}

fn word_fits(room: &FunctionRoom<'_>, word: &Expr, kind: Kind) -> bool
    ensures { result ≡ word_fits room.now word.now kind }
{
    has_kind(checked_kind(room, word), kind)
}

fn words_fit(room: &FunctionRoom<'_>, words: &[Expr], kinds: &[Kind]) -> bool
    ensures { result ≡ words_fit room.now words.now kinds.now }
{
    if words.len() != kinds.len() {
        return false;
    }
    for i in 0..words.len() {
        if !word_fits(room, &words[i], kinds[i]) {
            return false;
        }
    }
    true
}

fn call_fits(
    room: &FunctionRoom<'_>,
    callee: Option<&Function>,
    words: &[Expr],
    arrays: &[ArrayPlace],
) -> bool
    ensures { result ≡ call_fits room.now (option_copied callee.entry) words.now arrays.now }
{
    match callee {
        None => false,
        Some(callee) => {
            words_fit(room, words, &callee.parameters) && arrays_fit(room, arrays, &callee.arrays)
        }
    }
}

fn expr_fits(room: &FunctionRoom<'_>, expr: &Expr) -> bool
    ensures { result ≡ expr_fits room.now expr.now }
{
    checked_kind(room, expr).is_some()
}

fn operands_fit(parts: &GraphParts, room: &FunctionRoom<'_>, operation: &Operation) -> bool
    ensures { result ≡ operands_fit parts.now room.now operation.now }
{
    match operation {
        Operation::Skip => true,
        Operation::Assign { place, value } => { place_fits(room, place) && expr_fits(room, value) }
        Operation::Clear { array, length } => array_fits(room, *array, *length),
        Operation::Guard { test, .. } | Operation::Assert(test) | Operation::Assume(test) => {
            expr_fits(room, test)
        }
        Operation::Call {
            callee,
            words,
            arrays,
        } => call_fits(room, parts.functions.get(*callee as usize), words, arrays),
        Operation::Return { dest, .. } | Operation::Answer { dest, .. } => { dest_fits(room, dest) }
    }
}

fn edge_operands_fit(parts: &GraphParts, edge: &Edge) -> bool
    ensures { IsTrue result ↔ IsSomeAnd (slice_get parts.now.functions edge.now.function) (λ f. IsTrue (operands_fit parts.now (room_of parts.now f) edge.now.operation)) }
{
    match parts.functions.get(edge.function as usize) {
        None => false,
        Some(function) => {
            let room = FunctionRoom::of(parts, function);
            operands_fit(parts, &room, &edge.operation)
        }
    }
}

fn is_return_of(parts: &GraphParts, at: usize, function: u32, call: u32) -> bool
    ensures { IsTrue result ↔ IsSomeAnd (slice_get parts.now.edges at) (λ next. (next.function ≡ function) × (returned_call next.operation ≡ Some call)) }
{
    match parts.edges.get(at) {
        None => false,
        Some(next) => match returned_call(&next.operation) {
            None => false,
            Some(returned) => next.function == function && returned == call,
        },
    }
}

fn result_fits(parts: &GraphParts, call: u32, dest: &Option<CellPlace>) -> bool
    ensures { IsTrue result ↔ IsSomeAnd (function_called parts.now call) (λ f. OnSome dest.now (IsSome f.result)) }
{
    match function_called(parts, call) {
        None => false,
        Some(callee) => dest.is_none() || callee.result.is_some(),
    }
}

fn pair_fits(parts: &GraphParts, at: u32, function: u32, operation: &Operation) -> bool
    ensures { IsTrue result ↔ PairFits parts.now at function operation.now }
{
    match operation {
        Operation::Call { .. } => is_return_of(parts, at as usize + 1, function, at),
        Operation::Return { call, dest } => {
            *call as usize + 1 == at as usize && result_fits(parts, *call, dest)
        }
        _ => true,
    }
}

/// Whether the edge of a number meets the rules for edges.
pub(crate) fn edge_fits(parts: &GraphParts, at: u32, edge: &Edge) -> bool
    ensures { IsTrue result ↔ EdgeFits parts.now at edge.now }
{
    (edge.span.file as usize) < parts.files.len()
        && (edge.function as usize) < parts.functions.len()
        && (edge.source as usize) < parts.nodes.len()
        && (edge.target as usize) < parts.nodes.len()
        && numbers_fit(parts, &edge.operation)
        && source_fits(parts, edge.function, edge.source, &edge.operation)
        && target_fits(parts, edge.function, edge.target, &edge.operation)
        && edge_operands_fit(parts, edge)
        && pair_fits(parts, at, edge.function, &edge.operation)
}

/// The number of the first edge that doesn't meet the rules, if there is one.
pub(crate) fn first_ill_edge(parts: &GraphParts) -> Option<u32>
    requires { length parts.now.edges < 2 ^ 32 }
    ensures { MatchOption result (EdgesFit parts.now) (IsFirstIll parts.now) }
{
    for (i, edge) in parts.edges.iter().enumerate() {
        if !edge_fits(parts, i as u32, edge) {
            return Some(i as u32);
        }
    }
    None
}
