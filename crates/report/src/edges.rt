// The lines of edges.
ghost use Rattle.std.specs.Prelude.{◌≡◌, ◌++◌, OnOk, slice_get};
ghost use Rattle.cfa.specs.Graph.{callee_of, function_called};
ghost use Rattle.report.specs.GraphText.{edge_head, edge_line, edge_place, function_name, input_name, kind_text, label_text, mark, marks_text, named, operation_text, spaced_names};

use crate::letters::push_place;
use crate::numbers::push_number;
use cfa::{Edge, Function, Graph, InputFunction, Operation};
use fq_core::{Name, StatementKind};
use std::alloc::AllocError;

/// The name of a function, or nothing past the last one.
pub fn function_name(functions: &[Function], number: u32) -> &[u8]
    ensures { result.now ≡ function_name (slice_get functions.now number) }
{
    match functions.get(number as usize) {
        Some(function) => function.name.bytes(),
        None => &[],
    }
}

/// The name of an input function, or nothing past the last one.
pub fn input_name(inputs: &[InputFunction], number: u32) -> &[u8]
    ensures { result.now ≡ input_name (slice_get inputs.now number) }
{
    match inputs.get(number as usize) {
        Some(function) => function.name.bytes(),
        None => &[],
    }
}

// The number of the function that an operation calls.
fn callee_of(operation: &Operation) -> Option<u32>
    ensures { result ≡ callee_of operation.now }
{
    match operation {
        Operation::Call { callee, .. } => Some(*callee),
        _ => None,
    }
}

// The name of the function that the edge of a number calls, or nothing where it calls none.
fn called_name(graph: &Graph, call: u32) -> &[u8]
    ensures { result.now ≡ function_name (function_called graph.now call) }
{
    let Some(edge) = graph.edges().get(call as usize) else {
        return &[];
    };
    match callee_of(&edge.operation) {
        Some(callee) => function_name(graph.functions(), callee),
        None => &[],
    }
}

/// The word of a statement kind.
pub fn kind_text(kind: StatementKind) -> &'static [u8]
    ensures { result.now ≡ kind_text kind }
{
    match kind {
        StatementKind::If => b"IF",
        StatementKind::For => b"FOR",
        StatementKind::While => b"WHILE",
        StatementKind::Do => b"DO",
        StatementKind::Switch => b"SWITCH",
        StatementKind::Assign => b"ASSIGN",
        StatementKind::Call => b"CALL",
        StatementKind::Return => b"RETURN",
        StatementKind::Decl => b"DECL",
        StatementKind::Assert => b"ASSERT",
        StatementKind::Assume => b"ASSUME",
        StatementKind::Jump => b"JUMP",
        StatementKind::Label => b"LABEL",
        StatementKind::Empty => b"EMPTY",
    }
}

/// Appends a word and a name.
pub fn push_two(text: &mut Vec<u8>, word: &[u8], name: &[u8]) -> Result<(), AllocError>
    ensures { OnOk result (text.new.items ≡ text.old.items ++ (word.now ++ name.now)) }
{
    text.extend_from_slice(word)?;
    text.extend_from_slice(name)?;
    Ok(())
}

fn push_operation(
    text: &mut Vec<u8>,
    graph: &Graph,
    operation: &Operation,
) -> Result<(), AllocError>
    ensures { OnOk result (text.new.items ≡ text.old.items ++ operation_text graph.now operation.now) }
{
    match operation {
        Operation::Skip => text.extend_from_slice(b"skip"),
        Operation::Assign { .. } => text.extend_from_slice(b"assign"),
        Operation::Clear { .. } => text.extend_from_slice(b"clear"),
        Operation::Guard { truth: true, .. } => text.extend_from_slice(b"guard true"),
        Operation::Guard { truth: false, .. } => text.extend_from_slice(b"guard false"),
        Operation::Call { callee, .. } => {
            push_two(text, b"call ", function_name(graph.functions(), *callee))
        }
        Operation::Return { call, .. } => push_two(text, b"return ", called_name(graph, *call)),
        Operation::Answer { input, .. } => {
            push_two(text, b"answer ", input_name(graph.inputs(), *input))
        }
        Operation::Assert(_) => text.extend_from_slice(b"assert"),
        Operation::Assume(_) => text.extend_from_slice(b"assume"),
    }
}

/// Appends the word of a mark, where it is set.
pub fn push_mark(text: &mut Vec<u8>, is_set: bool, word: &[u8]) -> Result<(), AllocError>
    ensures { OnOk result (text.new.items ≡ text.old.items ++ mark is_set word.now) }
{
    if is_set {
        text.extend_from_slice(word)?;
    }
    Ok(())
}

fn push_label(text: &mut Vec<u8>, label: &Option<Name>) -> Result<(), AllocError>
    ensures { OnOk result (text.new.items ≡ text.old.items ++ label_text label.now) }
{
    match label {
        Some(label) => push_two(text, b" label ", label.bytes()),
        None => Ok(()),
    }
}

// Appends names, each after a space.
fn push_spaced_names(text: &mut Vec<u8>, names: &[Name]) -> Result<(), AllocError>
    ensures { OnOk result (text.new.items ≡ text.old.items ++ spaced_names names.now) }
{
    for name in names {
        push_two(text, b" ", name.bytes())?;
    }
    Ok(())
}

// Appends a word and names, where there are any.
fn push_named(text: &mut Vec<u8>, word: &[u8], names: &[Name]) -> Result<(), AllocError>
    ensures { OnOk result (text.new.items ≡ text.old.items ++ named word.now names.now) }
{
    match names {
        [] => Ok(()),
        [_first, ..] => {
            text.extend_from_slice(word)?;
            push_spaced_names(text, names)?;
            Ok(())
        }
    }
}

fn push_marks(text: &mut Vec<u8>, edge: &Edge) -> Result<(), AllocError>
    ensures { OnOk result (text.new.items ≡ text.old.items ++ marks_text edge.now) }
{
    push_mark(text, edge.decision, b" decision")?;
    push_mark(text, edge.outcome, b" outcome")?;
    push_mark(text, edge.enter, b" enter")?;
    push_mark(text, edge.back, b" back")?;
    push_label(text, &edge.label)?;
    push_named(text, b" writes", &edge.writes)?;
    push_named(text, b" reads", &edge.reads)?;
    Ok(())
}

// Appends the nodes from and to which an edge leads.
fn push_edge_head(text: &mut Vec<u8>, number: usize, edge: &Edge) -> Result<(), AllocError>
    ensures { OnOk result (text.new.items ≡ text.old.items ++ edge_head number edge.now) }
{
    text.extend_from_slice(b"edge ")?;
    push_number(text, number)?;
    text.extend_from_slice(b" from ")?;
    push_number(text, edge.source)?;
    text.extend_from_slice(b" to ")?;
    push_number(text, edge.target)?;
    Ok(())
}

// Appends the file, the line and the column of an edge's first byte, and the kind of its statement.
fn push_edge_place(text: &mut Vec<u8>, files: &[Name], edge: &Edge) -> Result<(), AllocError>
    ensures { OnOk result (text.new.items ≡ text.old.items ++ edge_place files.now edge.now) }
{
    push_place(text, files, edge.span.file, edge.span.line)?;
    text.extend_from_slice(b":")?;
    push_number(text, edge.span.column)?;
    text.extend_from_slice(b" ")?;
    text.extend_from_slice(kind_text(edge.statement))?;
    Ok(())
}

/// Appends the line of an edge.
pub fn push_edge(
    text: &mut Vec<u8>,
    graph: &Graph,
    number: usize,
    edge: &Edge,
) -> Result<(), AllocError>
    ensures { OnOk result (text.new.items ≡ text.old.items ++ edge_line graph.now number edge.now) }
{
    push_edge_head(text, number, edge)?;
    text.extend_from_slice(b" ")?;
    push_edge_place(text, graph.files(), edge)?;
    text.extend_from_slice(b" ")?;
    push_operation(text, graph, &edge.operation)?;
    push_marks(text, edge)?;
    text.extend_from_slice(b"\n")?;
    Ok(())
}
