// What filters keep.
ghost use Rattle.std.specs.Prelude.{◌≡◌, IfOk};
ghost use Rattle.filters.specs.Combining.{joined};
ghost use Rattle.filters.specs.Kept.{function_part, kept_by_form};
ghost use Rattle.filters.specs.Parts.{marked, IsFull, keeping, without, either, both};
ghost use Rattle.filters.specs.Properties.{has_property};
ghost use Rattle.fql_read.specs.declared.filter.FilterForm.{out-FilterForm};

use crate::ends::with_ends;
use crate::marks::{Combination, Marks, combined};
use crate::properties::{edges_with, nodes_of};
use cfa::Graph;
use fq_core::{Memory, Name};
use fql_read::FilterForm;
use std::alloc::Global;

fn copy(alloc: Global, base: &Marks) -> Result<Marks, Memory>
    ensures { IfOk result (λ m. (m.nodes.items ≡ base.now.nodes.items) × (m.edges.items ≡ base.now.edges.items)) }
{
    let nodes = Vec::from_slice(alloc, &base.nodes)?;
    let edges = Vec::from_slice(alloc, &base.edges)?;
    Ok(Marks { nodes, edges })
}

/// The edges of a part that have the property of a filter, and their ends in the part.
fn keeping(alloc: Global, graph: &Graph, form: &FilterForm, base: &Marks) -> Result<Marks, Memory>
    requires { IsFull graph.now base.now }
    ensures full { IfOk result (λ m. IsFull graph.now m) }
    ensures kept { IfOk result (λ m. marked m ≡ keeping graph.now (has_property graph.now (out-FilterForm form.now)) (marked base.now)) }
{
    let edges = edges_with(alloc, graph, form, &base.edges)?;
    with_ends(alloc, graph, &base.nodes, edges)
}

/// The nodes and the edges of a part that belong to the function of a filter.
fn keeping_function(
    alloc: Global,
    graph: &Graph,
    form: &FilterForm,
    name: &Name,
    base: &Marks,
) -> Result<Marks, Memory>
    requires { IsFull graph.now base.now }
    ensures full { IfOk result (λ m. IsFull graph.now m) }
    ensures kept { IfOk result (λ m. marked m ≡ function_part graph.now name.now (has_property graph.now (out-FilterForm form.now)) (marked base.now)) }
{
    let edges = edges_with(alloc, graph, form, &base.edges)?;
    let nodes = nodes_of(alloc, graph, name, &base.nodes)?;
    Ok(Marks { nodes, edges })
}

/// The edges of one part that aren't in another, and their ends in the first.
fn without(alloc: Global, graph: &Graph, a: &Marks, b: &Marks) -> Result<Marks, Memory>
    requires first { IsFull graph.now a.now }
    requires second { IsFull graph.now b.now }
    ensures full { IfOk result (λ m. IsFull graph.now m) }
    ensures kept { IfOk result (λ m. marked m ≡ without graph.now (marked a.now) (marked b.now)) }
{
    let edges = combined(alloc, Combination::Without, &a.edges, &b.edges)?;
    with_ends(alloc, graph, &a.nodes, edges)
}

/// What two parts make, node by node and edge by edge.
fn joined(
    alloc: Global,
    graph: &Graph,
    combination: Combination,
    a: &Marks,
    b: &Marks,
) -> Result<Marks, Memory>
    requires first { IsFull graph.now a.now }
    requires second { IsFull graph.now b.now }
    ensures full { IfOk result (λ m. IsFull graph.now m) }
    ensures kept { IfOk result (λ m. marked m ≡ joined combination (marked a.now) (marked b.now)) }
{
    let nodes = combined(alloc, combination, &a.nodes, &b.nodes)?;
    let edges = combined(alloc, combination, &a.edges, &b.edges)?;
    Ok(Marks { nodes, edges })
}

/// What is in either of two parts.
fn either(alloc: Global, graph: &Graph, a: &Marks, b: &Marks) -> Result<Marks, Memory>
    requires first { IsFull graph.now a.now }
    requires second { IsFull graph.now b.now }
    ensures full { IfOk result (λ m. IsFull graph.now m) }
    ensures kept { IfOk result (λ m. marked m ≡ either (marked a.now) (marked b.now)) }
{
    joined(alloc, graph, Combination::Either, a, b)
}

/// What is in both of two parts.
fn both(alloc: Global, graph: &Graph, a: &Marks, b: &Marks) -> Result<Marks, Memory>
    requires first { IsFull graph.now a.now }
    requires second { IsFull graph.now b.now }
    ensures full { IfOk result (λ m. IsFull graph.now m) }
    ensures kept { IfOk result (λ m. marked m ≡ both (marked a.now) (marked b.now)) }
{
    joined(alloc, graph, Combination::Both, a, b)
}

/// What the filter of a form keeps of a part.
#[tactic(auto, using(crate::proofs::KeptLaws::filter_laws), unfolding(crate::specs::Kept::kept_by_form))]
pub(crate) fn kept(
    alloc: Global,
    graph: &Graph,
    form: &FilterForm,
    base: &Marks,
) -> Result<Marks, Memory>
    requires { IsFull graph.now base.now }
    ensures full { IfOk result (λ m. IsFull graph.now m) }
    ensures kept { IfOk result (λ m. marked m ≡ kept_by_form graph.now form.now (marked base.now)) }
{
    match form {
        FilterForm::Id => copy(alloc, base),
        FilterForm::Func(name) => keeping_function(alloc, graph, form, name, base),
        FilterForm::Not(filter) | FilterForm::Complement(filter) => {
            let inner = kept(alloc, graph, &filter.form, base)?;
            without(alloc, graph, base, &inner)
        }
        FilterForm::Union(first, second) => {
            let a = kept(alloc, graph, &first.form, base)?;
            let b = kept(alloc, graph, &second.form, base)?;
            either(alloc, graph, &a, &b)
        }
        FilterForm::Intersect(first, second) => {
            let a = kept(alloc, graph, &first.form, base)?;
            let b = kept(alloc, graph, &second.form, base)?;
            both(alloc, graph, &a, &b)
        }
        FilterForm::SetMinus(first, second) => {
            let a = kept(alloc, graph, &first.form, base)?;
            let b = kept(alloc, graph, &second.form, base)?;
            without(alloc, graph, &a, &b)
        }
        FilterForm::Compose(second, first) => {
            let inner = kept(alloc, graph, &first.form, base)?;
            kept(alloc, graph, &second.form, &inner)
        }
        FilterForm::File(_) | FilterForm::Line(_) => keeping(alloc, graph, form, base),
        FilterForm::Label(_) | FilterForm::StatementTypes(_) => keeping(alloc, graph, form, base),
        FilterForm::Call(_) => keeping(alloc, graph, form, base),
        FilterForm::Entry(_) | FilterForm::Exit(_) => keeping(alloc, graph, form, base),
        FilterForm::Writes(_) | FilterForm::Reads(_) => keeping(alloc, graph, form, base),
        FilterForm::ConditionEdge | FilterForm::DecisionEdge => keeping(alloc, graph, form, base),
        FilterForm::ConditionGraph => keeping(alloc, graph, form, base),
        FilterForm::BasicBlockEntry => keeping(alloc, graph, form, base),
    }
}
