// The first filter whose name isn't in the graph.
ghost use Rattle.std.specs.Prelude.{◌≡◌, IfOk, if◌then◌else◌};
ghost use Rattle.filters.specs.Names.{has_its_name, lesser, missing_name};
ghost use Rattle.fql_read.specs.declared.filter.Filter.{out-Filter};
ghost use Rattle.fql_read.specs.declared.filter.FilterForm.{out-FilterForm};

use crate::names::has_its_name;
use cfa::Graph;
use fq_core::Memory;
use fql_read::{Filter, FilterForm};
use std::alloc::Global;

/// The lesser of two columns, of which either may be absent.
pub fn lesser(first: Option<u32>, second: Option<u32>) -> Option<u32>
    ensures { result ≡ lesser first second }
{
    match (first, second) {
        (None, _) => second,
        (Some(_), None) => first,
        (Some(a), Some(b)) => Some(a.min(b)),
    }
}

/// The column of a filter whose own name isn't in the graph.
fn missing_here(alloc: Global, graph: &Graph, filter: &Filter) -> Result<Option<u32>, Memory>
    ensures { IfOk result (λ column. column ≡ (if has_its_name graph.now (out-FilterForm (out-Filter filter.now).form) then None else Some (out-Filter filter.now).column)) }
{
    if has_its_name(alloc, graph, &filter.form)? {
        Ok(None)
    } else {
        Ok(Some(filter.column))
    }
}

/// The least column of a filter, this one or one within it, that needs a name which isn't in the graph: `@FUNC`, `@ENTRY` and
/// `@EXIT` a defined function, `@CALL` a declared one, `@LABEL` a label of some edge, `@FILE` a file of the graph, `@DEF` and
/// `@USE` a name that some edge writes or reads or that is in the scope of some node.
#[tactic(auto, using(crate::proofs::KeptLaws::filter_laws), unfolding(crate::specs::Names::missing_name))]
pub fn missing(alloc: Global, graph: &Graph, filter: &Filter) -> Result<Option<u32>, Memory>
    ensures { IfOk result (λ column. column ≡ missing_name graph.now filter.now) }
{
    match &filter.form {
        FilterForm::Not(inner) | FilterForm::Complement(inner) => missing(alloc, graph, inner),
        FilterForm::Union(first, second)
        | FilterForm::Intersect(first, second)
        | FilterForm::SetMinus(first, second)
        | FilterForm::Compose(first, second) => {
            let a = missing(alloc, graph, first)?;
            let b = missing(alloc, graph, second)?;
            Ok(lesser(a, b))
        }
        FilterForm::File(_) | FilterForm::Label(_) | FilterForm::Call(_) => {
            missing_here(alloc, graph, filter)
        }
        FilterForm::Func(_) | FilterForm::Entry(_) | FilterForm::Exit(_) => {
            missing_here(alloc, graph, filter)
        }
        FilterForm::Writes(_) | FilterForm::Reads(_) => missing_here(alloc, graph, filter),
        FilterForm::Id | FilterForm::Line(_) | FilterForm::StatementTypes(_) => Ok(None),
        FilterForm::ConditionEdge | FilterForm::ConditionGraph | FilterForm::DecisionEdge => {
            Ok(None)
        }
        FilterForm::BasicBlockEntry => Ok(None),
    }
}
