// The properties of edges that filters test.
ghost use Rattle.std.specs.Prelude.{◌≡◌, ◌&&◌, false, length, option_map, slice_get, IfOk};
ghost use Rattle.std.specs.Option.{option_copied, option_map_or};
ghost use Rattle.std.specs.List.{list_any};
ghost use Rattle.cfa.specs.Graph.{is_guard};
ghost use Rattle.filters.specs.Kinds.{same_kind};
ghost use Rattle.filters.specs.Properties.{is_number, is_name, has_name, is_call, function_with, has_property};
ghost use Rattle.filters.specs.Incoming.{AreBlocks};
ghost use Rattle.filters.specs.Kept.{is_node_of};
ghost use Rattle.filters.specs.Parts.{is_marked, edge_has};
ghost use Rattle.filters.specs.Standing.{number_for};
ghost use Rattle.fql_read.specs.declared.filter.FilterForm.{out-FilterForm};

use crate::blocks::block_entries;
use cfa::{Edge, Function, Graph, InputFunction, Operation};
use fq_core::{Memory, Name, StatementKind};
use fql_read::FilterForm;
use std::alloc::Global;

fn is_number(own: Option<u32>, number: u32) -> bool
    ensures { result ≡ is_number own number }
{
    match own {
        None => false,
        Some(own) => own == number,
    }
}

fn is_file(graph: &Graph, name: &Name, file: u32) -> bool
    ensures { result ≡ is_name (slice_get graph.now.files file) name.now }
{
    match graph.files().get(file as usize) {
        None => false,
        Some(own) => own.bytes() == name.bytes(),
    }
}

/// Whether a name is among these.
pub(crate) fn has_name(names: &[Name], name: &Name) -> bool
    ensures { result ≡ has_name names.now name.now }
{
    names.iter().any(|own| own.bytes() == name.bytes())
}

pub(crate) fn is_label(label: &Option<Name>, name: &Name) -> bool
    ensures { result ≡ is_name label.now name.now }
{
    match label {
        None => false,
        Some(own) => own.bytes() == name.bytes(),
    }
}

fn is_function(function: Option<&Function>, name: &Name) -> bool
    ensures { result ≡ is_name (option_map (λ f. f.name) (option_copied function.entry)) name.now }
{
    match function {
        None => false,
        Some(function) => function.name.bytes() == name.bytes(),
    }
}

fn is_input(input: Option<&InputFunction>, name: &Name) -> bool
    ensures { result ≡ is_name (option_map (λ f. f.name) (option_copied input.entry)) name.now }
{
    match input {
        None => false,
        Some(input) => input.name.bytes() == name.bytes(),
    }
}

fn is_call(graph: &Graph, name: &Name, operation: &Operation) -> bool
    ensures { result ≡ is_call graph.now name.now operation.now }
{
    match operation {
        Operation::Call { callee, .. } => {
            is_function(graph.functions().get(*callee as usize), name)
        }
        Operation::Answer { input, .. } => is_input(graph.inputs().get(*input as usize), name),
        _ => false,
    }
}

fn is_guard(operation: &Operation) -> bool
    ensures { result ≡ is_guard operation.now }
{
    matches!(operation, Operation::Guard { .. })
}

fn same_kind(a: StatementKind, b: StatementKind) -> bool
    ensures { result ≡ same_kind a b }
{
    a as u8 == b as u8
}

fn is_kind_of(kinds: &[StatementKind], kind: StatementKind) -> bool
    ensures { result ≡ list_any (λ own. same_kind own kind) kinds.now }
{
    kinds.iter().any(|own| same_kind(*own, kind))
}

/// The number of what a filter's name stands for: a function, or its entry or exit.
pub(crate) fn number_for(graph: &Graph, form: &FilterForm) -> Option<u32>
    ensures { result ≡ number_for graph.now (out-FilterForm form.now) }
{
    match form {
        FilterForm::Func(name) => graph.function_named(name.bytes()),
        FilterForm::Entry(name) => match function_with(graph, name) {
            None => None,
            Some(function) => Some(function.entry),
        },
        FilterForm::Exit(name) => match function_with(graph, name) {
            None => None,
            Some(function) => Some(function.exit),
        },
        _ => None,
    }
}

fn function_with<'a>(graph: &'a Graph, name: &Name) -> Option<&'a Function>
    ensures { option_copied result ≡ function_with graph.now name.now }
{
    match graph.function_named(name.bytes()) {
        None => None,
        Some(number) => graph.functions().get(number as usize),
    }
}

pub(crate) fn is_marked(marks: &[bool], at: u32) -> bool
    ensures { result ≡ is_marked marks.now at }
{
    match marks.get(at as usize) {
        None => false,
        Some(mark) => *mark,
    }
}

// Whether an edge has the property of a filter, where this number is what the filter's name stands for, and these marks
// say where basic blocks begin if the filter asks for it.
fn has_property(
    graph: &Graph,
    form: &FilterForm,
    number: Option<u32>,
    begins: &[bool],
    edge: &Edge,
) -> bool
    requires number { number ≡ number_for graph.now (out-FilterForm form.now) }
    requires blocks { AreBlocks graph.now (out-FilterForm form.now) begins.now }
    ensures { result ≡ has_property graph.now (out-FilterForm form.now) edge.now }
{
    match form {
        FilterForm::File(name) => is_file(graph, name, edge.span.file),
        FilterForm::Line(line) => edge.span.line == *line,
        FilterForm::Func(_) => is_number(number, edge.function),
        FilterForm::Label(name) => is_label(&edge.label, name),
        FilterForm::Call(name) => is_call(graph, name, &edge.operation),
        FilterForm::Entry(_) => is_number(number, edge.source),
        FilterForm::Exit(_) => is_number(number, edge.target),
        FilterForm::BasicBlockEntry => is_marked(begins, edge.source),
        FilterForm::ConditionEdge => is_guard(&edge.operation),
        FilterForm::ConditionGraph => edge.decision,
        FilterForm::DecisionEdge => edge.outcome,
        FilterForm::StatementTypes(kinds) => is_kind_of(kinds, edge.statement),
        FilterForm::Writes(name) => has_name(&edge.writes, name),
        FilterForm::Reads(name) => has_name(&edge.reads, name),
        _ => false,
    }
}

fn edge_has(
    graph: &Graph,
    form: &FilterForm,
    number: Option<u32>,
    begins: &[bool],
    edge: usize,
) -> bool
    requires number { number ≡ number_for graph.now (out-FilterForm form.now) }
    requires blocks { AreBlocks graph.now (out-FilterForm form.now) begins.now }
    ensures { result ≡ edge_has graph.now (has_property graph.now (out-FilterForm form.now)) edge }
{
    match graph.edges().get(edge) {
        None => false,
        Some(edge) => has_property(graph, form, number, begins, edge),
    }
}

fn begins_for(alloc: Global, graph: &Graph, form: &FilterForm) -> Result<Vec<bool>, Memory>
    ensures { IfOk result (λ begins. AreBlocks graph.now (out-FilterForm form.now) begins.items) }
{
    match form {
        FilterForm::BasicBlockEntry => block_entries(alloc, graph),
        _ => Ok(Vec::new(alloc)),
    }
}

/// The edges, among these, that have the property of a filter.
#[tactic(auto, using(crate::proofs::MarksLaws::each_more, crate::proofs::MarksLaws::kept_is))]
pub(crate) fn edges_with(
    alloc: Global,
    graph: &Graph,
    form: &FilterForm,
    edges: &[bool],
) -> Result<Vec<bool>, Memory>
    ensures size { IfOk result (λ marks. length marks.items ≡ length edges.now) }
    ensures each { IfOk result (λ marks. is_marked marks.items ≡ (λ k. is_marked edges.now k && edge_has graph.now (has_property graph.now (out-FilterForm form.now)) k)) }
{
    let number = number_for(graph, form);
    let begins = begins_for(alloc, graph, form)?;
    let mut marks = Vec::new(alloc);
    for (k, mark) in edges.iter().enumerate() {
        marks.push(*mark && edge_has(graph, form, number, &begins, k))?;
    }
    Ok(marks)
}

fn is_node_of(graph: &Graph, function: Option<u32>, node: usize) -> bool
    ensures { result ≡ option_map_or (λ n. is_number function n.function) (slice_get graph.now.nodes node) false }
{
    match graph.nodes().get(node) {
        None => false,
        Some(node) => is_number(function, node.function),
    }
}

/// The nodes, among these, of the function with this name.
#[tactic(auto, using(crate::proofs::MarksLaws::each_more, crate::proofs::MarksLaws::kept_is))]
pub(crate) fn nodes_of(
    alloc: Global,
    graph: &Graph,
    name: &Name,
    nodes: &[bool],
) -> Result<Vec<bool>, Memory>
    ensures size { IfOk result (λ marks. length marks.items ≡ length nodes.now) }
    ensures each { IfOk result (λ marks. is_marked marks.items ≡ (λ n. is_marked nodes.now n && is_node_of graph.now name.now n)) }
{
    let function = graph.function_named(name.bytes());
    let mut marks = Vec::new(alloc);
    for (k, mark) in nodes.iter().enumerate() {
        marks.push(*mark && is_node_of(graph, function, k))?;
    }
    Ok(marks)
}
