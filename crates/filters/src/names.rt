// The names that filters need.
ghost use Rattle.std.specs.Prelude.{◌≡◌, length, IfOk, slice_get, false};
ghost use Rattle.std.specs.List.{list_any};
ghost use Rattle.std.specs.Option.{option_map_or};
ghost use Rattle.filters.specs.Names.{scope_has, sees, uses, is_variable, has_its_name};
ghost use Rattle.filters.specs.Parts.{is_marked};
ghost use Rattle.filters.specs.Properties.{is_name, has_name};
ghost use Rattle.fql_read.specs.declared.filter.FilterForm.{out-FilterForm};

use crate::properties::{has_name, is_label, is_marked};
use cfa::{Edge, Graph, Scope};
use fq_core::{Memory, Name};
use fql_read::FilterForm;
use std::alloc::Global;

fn scope_has(scope: &Scope, name: &Name) -> bool
    ensures { result ≡ scope_has name.now scope.now }
{
    scope.variables.find(name).is_some()
}

fn scope_at_has(graph: &Graph, scope: usize, name: &Name) -> bool
    ensures { result ≡ option_map_or (scope_has name.now) (slice_get graph.now.scopes scope) false }
{
    match graph.scopes().get(scope) {
        None => false,
        Some(scope) => scope_has(scope, name),
    }
}

// By scope, whether a variable of this name is in it, so that no scope is asked twice.
#[tactic(auto, using(crate::proofs::MarksLaws::each_more))]
fn scopes_with(alloc: Global, graph: &Graph, name: &Name) -> Result<Vec<bool>, Memory>
    ensures { IfOk result (λ marks. is_marked marks.items ≡ (λ i. option_map_or (scope_has name.now) (slice_get graph.now.scopes i) false)) }
{
    let mut marks = Vec::new(alloc);
    for scope in 0..graph.scopes().len() {
        marks.push(scope_at_has(graph, scope, name))?;
    }
    Ok(marks)
}

fn is_some_scope_marked(graph: &Graph, marks: &[bool]) -> bool
    ensures { result ≡ list_any (λ node. is_marked marks.now node.scope) graph.now.nodes }
{
    graph
        .nodes()
        .iter()
        .any(|node| is_marked(marks, node.scope))
}

fn is_seen(alloc: Global, graph: &Graph, name: &Name) -> Result<bool, Memory>
    ensures { IfOk result (λ seen. seen ≡ list_any (sees graph.now name.now) graph.now.nodes) }
{
    let marks = scopes_with(alloc, graph, name)?;
    let seen = is_some_scope_marked(graph, &marks);
    Ok(seen)
}

fn uses(edge: &Edge, name: &Name) -> bool
    ensures { result ≡ uses name.now edge.now }
{
    has_name(&edge.writes, name) || has_name(&edge.reads, name)
}

fn is_used(graph: &Graph, name: &Name) -> bool
    ensures { result ≡ list_any (uses name.now) graph.now.edges }
{
    graph.edges().iter().any(|edge| uses(edge, name))
}

fn is_variable(alloc: Global, graph: &Graph, name: &Name) -> Result<bool, Memory>
    ensures { IfOk result (λ there. there ≡ is_variable graph.now name.now) }
{
    if is_used(graph, name) {
        Ok(true)
    } else {
        is_seen(alloc, graph, name)
    }
}

fn is_some_label(graph: &Graph, name: &Name) -> bool
    ensures { result ≡ list_any (λ edge. is_name edge.label name.now) graph.now.edges }
{
    graph.edges().iter().any(|edge| is_label(&edge.label, name))
}

/// Whether the name that a filter needs, if it needs one, is in the graph.
pub(crate) fn has_its_name(alloc: Global, graph: &Graph, form: &FilterForm) -> Result<bool, Memory>
    ensures { IfOk result (λ there. there ≡ has_its_name graph.now (out-FilterForm form.now)) }
{
    match form {
        FilterForm::File(name) => Ok(has_name(graph.files(), name)),
        FilterForm::Func(name) | FilterForm::Entry(name) | FilterForm::Exit(name) => {
            Ok(graph.function_named(name.bytes()).is_some())
        }
        FilterForm::Call(name) => Ok(has_name(graph.declared(), name)),
        FilterForm::Label(name) => Ok(is_some_label(graph, name)),
        FilterForm::Writes(name) | FilterForm::Reads(name) => is_variable(alloc, graph, name),
        _ => Ok(true),
    }
}
