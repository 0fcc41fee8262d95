// The control flow automaton.
ghost use Rattle.std.specs.Prelude.{◌≡◌, ◌<◌, ◌↔◌, length, slice_get, IsTrue, IfOk, IfErr};
ghost use Rattle.cfa.specs.Fault.{IsFault};
ghost use Rattle.cfa.specs.Graph.{IsGraph, EdgesFit, RestFits};
ghost use Rattle.cfa.specs.Names.{first_named};
ghost use Rattle.cfa.specs.Table.{outgoing_of, IsOutgoing};

use crate::edge::first_ill_edge;
use crate::fault::GraphFault;
use crate::names::first_numbers;
use crate::parts::{Edge, Function, GraphParts, InputFunction, Node, Scope};
use crate::rest::{
    functions_fit, global_kinds_fit, inputs_fit, nodes_fit, returns_fit, scopes_fit, variables_fit,
};
use crate::ways::{outgoing_rows, ways_fit};
use c_values::Kind;
use containers::Vector;
use fq_core::Name;
use std::alloc::{AllocError, Global};
use std::collections::BTreeMap;
use std::marker::Model;

/// How many cells the globals may have.
const MOST_GLOBALS: usize = 16384;

/// A control flow automaton: parts that meet their rules.
#[derive(Drop)]
pub struct Graph {
    parts: GraphParts,
    /// By node, the numbers of the edges that leave it.
    rows: Vector<Vector<u32>>,
    /// By name, the number of the first function that has it.
    names: BTreeMap<Vec<u8>, u32>,
}

impl Model for Graph {
    ghost use Rattle.std.specs.Coded.{codes};
    ghost use Rattle.cfa.specs.declared.parts.GraphParts.{GraphParts};
    ghost use Rattle.cfa.specs.contracts.expr.CellPlace as place;
    ghost use Rattle.cfa.specs.contracts.expr.Expr as expr;

    ghost Value = { GraphParts };

    ghost coded = { Prim.hlevel (codes, place.the_row.coded, expr.the_row.coded) };

    ghost use Rattle.cfa.specs.Coherent.{IsCoherent};

    ghost view = { λ g. g.parts };

    ghost invariant = { λ g. IsCoherent g.parts g.rows g.names };
}

// Whether the parts other than edges meet their rules.
fn rest_fits(alloc: Global, parts: &GraphParts, rows: &[Vector<u32>]) -> Result<bool, AllocError>
    requires { IsOutgoing parts.now rows.now }
    ensures { IfOk result (λ fit. IsTrue fit ↔ RestFits parts.now) }
{
    if !nodes_fit(parts) {
        return Ok(false);
    }
    if !functions_fit(parts) {
        return Ok(false);
    }
    if !inputs_fit(parts) {
        return Ok(false);
    }
    if !global_kinds_fit(parts) {
        return Ok(false);
    }
    if parts.globals.len() > MOST_GLOBALS {
        return Ok(false);
    }
    if !scopes_fit(parts) {
        return Ok(false);
    }
    if !returns_fit(parts) {
        return Ok(false);
    }
    if !ways_fit(parts, rows) {
        return Ok(false);
    }
    let fit = variables_fit(alloc, parts)?;
    Ok(fit)
}

impl Graph {
    /// The graph of these parts.
    ///
    /// # Errors
    ///
    /// `IllNumbered` names the first edge that breaks the rules for edges. `IllPart` says that no edge does and another
    /// part breaks its own. `Memory` comes where an allocation is refused, or there are 2^32 edges or functions
    /// or more.
    pub fn new(alloc: Global, parts: GraphParts) -> Result<Graph, GraphFault>
        ensures ok { IfOk result (λ g. (g ≡ parts) × IsGraph parts) }
        ensures err { IfErr result (λ fault. IsFault parts fault) }

        // want of memory alone refuses a graph
        ensures complete { IsGraph parts → IfErr result (λ fault. fault ≡ GraphFault.Memory) }
    {
        if parts.edges.len() > u32::MAX as usize || parts.functions.len() > u32::MAX as usize {
            return Err(GraphFault::Memory);
        }
        match first_ill_edge(&parts) {
            Some(edge) => return Err(GraphFault::IllNumbered { edge }),
            None => {}
        }
        let rows = outgoing_rows(alloc, &parts)?;
        if !rest_fits(alloc, &parts, &rows)? {
            return Err(GraphFault::IllPart);
        }
        let names = first_numbers(alloc, &parts)?;
        Ok(Graph {
            parts,
            rows: Vector::from_vec(rows),
            names,
        })
    }

    /// The law of the type: the parts of each graph meet their rules.
    pub fn well_formed(&self)
        ensures { IsGraph self.now }
    {
        let _parts = &self.parts;
    }

    /// The nodes, by number.
    pub fn nodes(&self) -> &[Node]
        ensures { result.now ≡ self.now.nodes }
    {
        &self.parts.nodes
    }

    /// The edges, by number.
    pub fn edges(&self) -> &[Edge]
        ensures { result.now ≡ self.now.edges }
    {
        &self.parts.edges
    }

    /// The defined functions, by number.
    pub fn functions(&self) -> &[Function]
        ensures { result.now ≡ self.now.functions }
    {
        &self.parts.functions
    }

    /// The names of the source files, in the order of the sources.
    pub fn files(&self) -> &[Name]
        ensures { result.now ≡ self.now.files }
    {
        &self.parts.files
    }

    /// The names of the functions that are declared.
    pub fn declared(&self) -> &[Name]
        ensures { result.now ≡ self.now.declared }
    {
        &self.parts.declared
    }

    /// The input functions, by number.
    pub fn inputs(&self) -> &[InputFunction]
        ensures { result.now ≡ self.now.inputs }
    {
        &self.parts.inputs
    }

    /// The scopes, by number.
    pub fn scopes(&self) -> &[Scope]
        ensures { result.now ≡ self.now.scopes }
    {
        &self.parts.scopes
    }

    /// The kind and the first value of each cell of the globals.
    pub fn globals(&self) -> &[(Kind, u64)]
        ensures { result.now ≡ self.now.globals }
    {
        &self.parts.globals
    }

    /// The numbers of the edges that leave a node, rising.
    pub fn outgoing(&self, node: u32) -> &[u32]
        requires { node < length self.now.nodes }
        ensures { result.now ≡ outgoing_of self.now node }
    {
        &self.rows[node as usize]
    }

    /// The number of the defined function with this name, the least where several have it.
    pub fn function_named(&self, name: &[u8]) -> Option<u32>
        ensures { result ≡ first_named self.now.functions name.now }
    {
        self.names.get(name).copied()
    }
}
