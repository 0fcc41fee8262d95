// From expressions of C to those of an automaton, in each scope.
ghost use Rattle.std.specs.Prelude.{◌≡◌, length, IfOk, IfSome};
ghost use Rattle.c_types.specs.Scoped.{expression_in};
ghost use Rattle.predicates.specs.Narrowing.{IsMeaning, names_of};
ghost use Rattle.predicates.specs.Typing.{AreMeanings, IsTableOf, is_met, meanings_in};

use crate::narrowing::{is_sight, names_of, seen, sight};
use c_parse::ExprTree;
use c_types::type_expression;
use cfa::{Graph, Scope, SharedExpr, Variable};
use containers::{TryClone, Vector};
use fq_core::{Memory, Name};
use std::alloc::Global;

// By scope, whether some node has it.
fn scopes_with_nodes(alloc: Global, graph: &Graph) -> Result<Vec<bool>, Memory>
    ensures { IfOk result (λ table. IsTableOf graph.now.nodes (length graph.now.scopes) table.items) }
{
    graph.well_formed();
    let nodes = graph.nodes();
    let mut table = vec![in alloc; false; graph.scopes().len()]?;
    for node in nodes {
        table[node.scope as usize] = true;
    }
    Ok(table)
}

/// What the names of an expression stand for, and what the expression is wherever they stand for that.
#[derive(Drop)]
struct Seen {
    row: Vector<Option<Variable>>,
    meaning: Option<SharedExpr>,
}

// The expression of a tree in the scopes where its names stand for these variables.
fn meaning_of(
    alloc: Global,
    tree: &ExprTree,
    row: &[Option<Variable>],
) -> Result<Option<SharedExpr>, Memory>
    ensures { IfOk result (λ meaning. IsMeaning tree.now row.now meaning) }
{
    let scope = seen(alloc, row)?;
    match type_expression(alloc, tree, &scope)? {
        None => Ok(None),
        Some(expr) => Ok(Some(SharedExpr::new(alloc, expr)?)),
    }
}

// What a tree is in a scope, taken from another one where its names stand for the same.
fn seen_in(
    alloc: Global,
    tree: &ExprTree,
    names: &[Name],
    scope: &Scope,
    last: Option<Seen>,
) -> Result<Seen, Memory>
    requires names { names.now ≡ names_of tree.now }
    requires last { IfSome last (λ other. IsMeaning tree.now other.row other.meaning) }
    ensures known { IfOk result (λ found. IsMeaning tree.now found.row found.meaning) }
    ensures here { IfOk result (λ found. expression_in scope.now tree.now ≡ found.meaning) }
{
    if let Some(last) = last {
        if is_sight(names, scope, &last.row) {
            return Ok(last);
        }
    }
    let row = sight(alloc, names, scope)?;
    let meaning = meaning_of(alloc, tree, &row)?;
    Ok(Seen { row, meaning })
}

// The expression of a tree in each scope. Neighbours in which its names stand for the same share it.
fn meanings_in(
    alloc: Global,
    scopes: &[Scope],
    tree: &ExprTree,
) -> Result<Vector<Option<SharedExpr>>, Memory>
    ensures { IfOk result (λ row. row ≡ meanings_in scopes.now tree.now) }
{
    let names = names_of(alloc, tree)?;
    let mut row = Vector::new(alloc);
    let mut last = None;
    for scope in scopes {
        let found = seen_in(alloc, tree, &names, scope, last)?;
        row.push(found.meaning.try_clone(alloc)?)?;
        last = Some(found);
    }
    Ok(row)
}

// Whether there is an expression in a scope that has a node.
fn is_met(row: &[Option<SharedExpr>], table: &[bool]) -> bool
    ensures { result ≡ is_met row.now table.now }
{
    row.iter()
        .zip(table)
        .any(|(meaning, has_node)| meaning.is_some() && *has_node)
}

/// By tree and scope, the expressions of trees in the scopes of an automaton, or none where some tree has none in a scope
/// that a node has. A tree is typed once for neighbours in which its names stand for the same variables.
pub fn meanings_of(
    alloc: Global,
    graph: &Graph,
    trees: &[ExprTree],
) -> Result<Option<Vector<Vector<Option<SharedExpr>>>>, Memory>
    ensures { IfOk result (λ rows. AreMeanings graph.now trees.now rows) }
{
    let table = scopes_with_nodes(alloc, graph)?;
    let mut rows = Vector::new(alloc);
    for tree in trees {
        let row = meanings_in(alloc, graph.scopes(), tree)?;
        if !is_met(row.as_slice(), table.as_slice()) {
            return Ok(None);
        }
        rows.push(row)?;
    }
    Ok(Some(rows))
}
