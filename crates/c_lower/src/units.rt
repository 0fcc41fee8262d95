// Functions, their scopes, and the parts of a unit's graph.
ghost use Rattle.std.specs.Prelude.{◌≡◌, ◌+◌, ◌<◌, ◌≤◌, ◌++◌, map, filter_map, length, IfOk, IfErr, OnOk};
ghost use Rattle.std.specs.List.{flat_map};
ghost use Rattle.cfa.specs.declared.parts.Variable.{Variable as OneVariable};
ghost use Rattle.c_typed_trees.specs.declared.unit.Global.{Global as OneGlobal};
ghost use Rattle.c_lower_rules.specs.graph_of.Builder.{in_order, after};
ghost use Rattle.c_lower_rules.specs.graph_of.GraphOf.{graph_of, word_kind, function_of, functions_from, global_variables, global_cells, outermost, around_of, ends, bodies_from, made};
ghost use Rattle.c_lower.specs.Stopping.{IsStop, IsTold};

use crate::make::MOST_EDGES;
use crate::statements::block;
use crate::stop::Stop;
use c_lower_rules::graph_of::{Around, Parts};
use c_typed_trees::{Global as GlobalVariable, Typed, TypedFunction};
use c_values::Kind;
use cfa::{Function, GraphParts, InputFunction, Node, Scope, StatementKind, Variable, Variables};
use containers::{TryClone, Vector};
use fq_core::{Name, Span};
use std::alloc::{AllocError, Global};

/// Variables, and then those of further out.
fn before_all(
    alloc: Global,
    variables: &[Variable],
    outer: Variables,
) -> Result<Variables, AllocError>
    ensures { IfOk result (λ chain. chain ≡ variables.now ++ outer) }
{
    let mut chain = outer;
    let mut i = variables.len();
    while i > 0 {
        i -= 1;
        chain = Variables::with(alloc, variables[i].try_clone(alloc)?, chain)?;
    }
    Ok(chain)
}

/// The variables of the file's scope.
fn global_variables(alloc: Global, globals: &[GlobalVariable]) -> Result<Variables, AllocError>
    ensures { IfOk result (λ chain. chain ≡ map (λ (g : OneGlobal). g.variable) globals.now) }
{
    let mut chain = Variables::new();
    let mut i = globals.len();
    while i > 0 {
        i -= 1;
        chain = Variables::with(alloc, globals[i].variable.try_clone(alloc)?, chain)?;
    }
    Ok(chain)
}

/// What a function's body and its ends see.
fn outermost(
    alloc: Global,
    globals: &Variables,
    function: &TypedFunction,
) -> Result<Scope, AllocError>
    ensures { IfOk result (λ scope. scope ≡ outermost globals.now function.now) }
{
    Ok(Scope {
        variables: before_all(alloc, &function.parameters, globals.share()?)?,
    })
}

/// What the body of the function of a number stands in.
fn around_of(
    alloc: Global,
    globals: &Variables,
    number: u32,
    function: &TypedFunction,
) -> Result<Around, AllocError>
    requires { number < 2147483648 }
    ensures { IfOk result (λ around. around ≡ around_of globals.now number function.now) }
{
    let exit = 2 * number + 1;
    Ok(Around {
        function: number,
        scope: number,
        sees: outermost(alloc, globals, function)?,
        depth: 0,
        exit,
        on_break: exit,
        on_continue: exit,
        span: function.span,
        statement: StatementKind::Empty,
        decision: None,
    })
}

fn end_node(number: u32, span: Span) -> Node
    ensures { result ≡ record { function = number; file = span.file; line = span.line; scope = number; depth = 0 } }
{
    Node {
        function: number,
        file: span.file,
        line: span.line,
        scope: number,
        depth: 0,
    }
}

/// The entries, exits and outermost scopes of functions.
fn ends(alloc: Global, globals: &Variables, functions: &[TypedFunction]) -> Result<Parts, Stop>
    requires { length functions.now < 2147483648 }
    ensures made { IfOk result (λ parts. parts ≡ ends globals.now functions.now 0 0 0) }
    ensures memory { IfErr result (λ stop. stop ≡ Stop.Memory) }
{
    let mut parts = Parts {
        nodes: Vector::new(alloc),
        edges: Vector::new(alloc),
        scopes: Vector::new(alloc),
    };
    for (i, function) in functions.iter().enumerate() {
        let number = i as u32;
        parts.nodes.push(end_node(number, function.span))?;
        parts.nodes.push(end_node(number, function.close))?;
        parts.scopes.push(outermost(alloc, globals, function)?)?;
    }
    Ok(parts)
}

/// The bodies of functions, each as a block from its entry to its exit.
#[tactic(auto, using(crate::proofs::Stops::stopping))]
fn bodies(
    alloc: Global,
    globals: &Variables,
    functions: &[TypedFunction],
    parts: &mut Parts,
) -> Result<(), Stop>
    requires { length functions.now < 2147483648 }
    ensures made { OnOk result (parts.new ≡ after (in_order (bodies_from globals.now 0 functions.now)) parts.old) }
    ensures err { IfErr result (λ stop. IsStop stop (after (in_order (bodies_from globals.now 0 functions.now)) parts.old)) }
{
    for (i, function) in functions.iter().enumerate() {
        let number = i as u32;
        let around = around_of(alloc, globals, number, function)?;
        block(
            alloc,
            &around,
            2 * number,
            2 * number + 1,
            &function.body,
            parts,
        )?;
    }
    Ok(())
}

/// The kinds of the parameters that are integers.
fn word_kinds(alloc: Global, parameters: &[Variable]) -> Result<Vector<Kind>, AllocError>
    ensures { IfOk result (λ kinds. kinds ≡ filter_map word_kind parameters.now) }
{
    let mut kinds = Vector::new(alloc);
    for parameter in parameters {
        match parameter.length {
            None => kinds.push(parameter.kind)?,
            Some(_) => {}
        }
    }
    Ok(kinds)
}

/// The lengths of the parameters that are arrays.
fn array_lengths(alloc: Global, parameters: &[Variable]) -> Result<Vector<u32>, AllocError>
    ensures { IfOk result (λ lengths. lengths ≡ filter_map (λ (v : OneVariable). v.length) parameters.now) }
{
    let mut lengths = Vector::new(alloc);
    for parameter in parameters {
        match parameter.length {
            None => {}
            Some(length) => lengths.push(length)?,
        }
    }
    Ok(lengths)
}

fn function_of(alloc: Global, number: u32, function: &TypedFunction) -> Result<Function, AllocError>
    requires { number < 2147483648 }
    ensures { IfOk result (λ f. f ≡ function_of number function.now) }
{
    Ok(Function {
        name: function.name.try_clone(alloc)?,
        entry: 2 * number,
        exit: 2 * number + 1,
        parameters: word_kinds(alloc, &function.parameters)?,
        arrays: array_lengths(alloc, &function.parameters)?,
        result: function.result,
        cells: function.cells,
    })
}

fn functions_of(alloc: Global, functions: &[TypedFunction]) -> Result<Vector<Function>, AllocError>
    ensures { IfOk result (λ all. all ≡ functions_from 0 functions.now) }
{
    if functions.len() >= 1 << 31 {
        return Err(AllocError);
    }
    let mut all = Vector::new(alloc);
    for (i, function) in functions.iter().enumerate() {
        all.push(function_of(alloc, i as u32, function)?)?;
    }
    Ok(all)
}

/// The cells of a global, with their first values.
fn cells_of(kind: Kind, first: &[u64], cells: &mut Vector<(Kind, u64)>) -> Result<(), AllocError>
    ensures { OnOk result (cells.new ≡ cells.old ++ map (λ value. (kind, value)) first.now) }
{
    for value in first {
        cells.push((kind, *value))?;
    }
    Ok(())
}

fn global_cells(
    alloc: Global,
    globals: &[GlobalVariable],
) -> Result<Vector<(Kind, u64)>, AllocError>
    ensures { IfOk result (λ cells. cells ≡ flat_map (λ (g : OneGlobal). map (λ value. (g.variable.kind, value)) g.first) globals.now) }
{
    let mut cells = Vector::new(alloc);
    for global in globals {
        cells_of(global.variable.kind, &global.first, &mut cells)?;
    }
    Ok(cells)
}

fn inputs_of(alloc: Global, inputs: &[InputFunction]) -> Result<Vector<InputFunction>, AllocError>
    ensures { IfOk result (λ copy. copy ≡ inputs.now) }
{
    let mut copy = Vector::new(alloc);
    for input in inputs {
        copy.push(InputFunction {
            name: input.name.try_clone(alloc)?,
            result: input.result,
        })?;
    }
    Ok(copy)
}

/// The nodes, edges and scopes of a unit.
fn all_made(
    alloc: Global,
    globals: &[GlobalVariable],
    functions: &[TypedFunction],
) -> Result<Parts, Stop>
    ensures ok { IfOk result (λ parts. parts ≡ made (map (λ (g : OneGlobal). g.variable) globals.now) functions.now) }
    ensures within { IfOk result (λ parts. length parts.edges ≤ 40000) }
    ensures err { IfErr result (λ stop. IsStop stop (made (map (λ (g : OneGlobal). g.variable) globals.now) functions.now)) }
{
    if functions.len() >= 1 << 31 {
        return Err(Stop::Memory);
    }
    let variables = global_variables(alloc, globals)?;
    let mut parts = ends(alloc, &variables, functions)?;
    bodies(alloc, &variables, functions, &mut parts)?;
    if parts.edges.len() > MOST_EDGES {
        return Err(Stop::TooManyEdges);
    }
    Ok(parts)
}

/// The parts of the graph of a unit, with the names of its files.
///
/// # Errors
///
/// `TooManyEdges` says that the graph has more than 40,000 edges, and comes wherever it has, unless memory runs out
/// first. `Memory` comes where an allocation is refused, or a number would pass 2^32 - 1.
pub fn make_parts(alloc: Global, typed: &Typed, files: Vector<Name>) -> Result<GraphParts, Stop>
    ensures ok { IfOk result (λ parts. parts ≡ graph_of typed.now files) }
    ensures within { IfOk result (λ parts. length parts.edges ≤ 40000) }
    ensures err { IfErr result (λ stop. IsTold stop (graph_of typed.now files)) }
{
    let Parts {
        nodes,
        edges,
        scopes,
    } = all_made(alloc, &typed.globals, &typed.functions)?;
    Ok(GraphParts {
        files,
        nodes,
        edges,
        functions: functions_of(alloc, &typed.functions)?,
        declared: typed.declared.try_clone(alloc)?,
        inputs: inputs_of(alloc, &typed.inputs)?,
        scopes,
        globals: global_cells(alloc, &typed.globals)?,
    })
}
