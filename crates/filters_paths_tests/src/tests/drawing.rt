// Automata of one function f, drawn edge by edge. Node 0 is its entry and node 1 its exit.
use c_values::Kind;
use cfa::*;
use containers::Vector;
use fq_core::{Memory, Name, Span, StatementKind};
use std::alloc::Global;

#[derive(Drop)]
pub struct Drawing {
    alloc: Global,
    nodes: u32,
    edges: Vector<Edge>,
}

fn guard(truth: bool) -> Operation {
    Operation::Guard {
        test: Expr::Constant(1, Kind::INT),
        truth,
    }
}

impl Drawing {
    pub fn new(alloc: Global) -> Drawing {
        Drawing {
            alloc,
            nodes: 2,
            edges: Vector::new(alloc),
        }
    }

    /// Another node.
    pub fn node(&mut self) -> u32 {
        let node = self.nodes;
        self.nodes = node.saturating_add(1);
        node
    }

    fn edge(&mut self, source: u32, target: u32, operation: Operation) -> Result<(), Memory> {
        self.edges.push(Edge {
            source,
            target,
            function: 0,
            operation,
            span: Span {
                file: 0,
                line: 1,
                column: 1,
                start: 0,
                end: 1,
            },
            statement: StatementKind::Empty,
            decision: false,
            outcome: false,
            label: None,
            writes: Vector::new(self.alloc),
            reads: Vector::new(self.alloc),
            enter: false,
            back: false,
        })?;
        Ok(())
    }

    /// An edge that does nothing.
    pub fn skip(&mut self, source: u32, target: u32) -> Result<(), Memory> {
        self.edge(source, target, Operation::Skip)
    }

    /// Two guards, that of truth first.
    pub fn branch(&mut self, source: u32, yes: u32, no: u32) -> Result<(), Memory> {
        self.edge(source, yes, guard(true))?;
        self.edge(source, no, guard(false))
    }

    /// So many edges in a row from a node. The node at their end.
    pub fn row(&mut self, source: u32, count: u32) -> Result<u32, Memory> {
        let mut at = source;
        for _ in 0..count {
            let next = self.node();
            self.skip(at, next)?;
            at = next;
        }
        Ok(at)
    }

    /// So many branches in a row from a node, of which each guard of truth leads to one other node. The node at their end.
    pub fn row_beside(&mut self, source: u32, beside: u32, count: u32) -> Result<u32, Memory> {
        let mut at = source;
        for _ in 0..count {
            let next = self.node();
            self.branch(at, beside, next)?;
            at = next;
        }
        Ok(at)
    }

    /// So many branches in a row, each of which comes together again at once. The node at their end.
    pub fn ladder(&mut self, source: u32, count: u32) -> Result<u32, Memory> {
        let mut at = source;
        for _ in 0..count {
            let yes = self.node();
            let next = self.node();
            self.branch(at, yes, next)?;
            self.skip(yes, next)?;
            at = next;
        }
        Ok(at)
    }

    /// So many ways from a node to another, by branches in a row, of which each guard of truth leads there, and the last
    /// guard too. That other node.
    pub fn stairs(&mut self, source: u32, ways: u32) -> Result<u32, Memory> {
        let landing = self.node();
        let mut at = source;
        for _ in 2..ways {
            let next = self.node();
            self.branch(at, landing, next)?;
            at = next;
        }
        self.branch(at, landing, landing)?;
        Ok(landing)
    }

    fn all_nodes(&self) -> Result<Vector<Node>, Memory> {
        let mut nodes = Vector::new(self.alloc);
        for _ in 0..self.nodes {
            nodes.push(Node {
                function: 0,
                file: 0,
                line: 1,
                scope: 0,
                depth: 0,
            })?;
        }
        Ok(nodes)
    }

    fn parts(self) -> Result<GraphParts, Memory> {
        let nodes = self.all_nodes()?;
        let Drawing {
            alloc,
            nodes: _count,
            edges,
        } = self;
        let mut files = Vector::new(alloc);
        files.push(Name::new(alloc, b"f.c")?)?;
        let mut declared = Vector::new(alloc);
        declared.push(Name::new(alloc, b"f")?)?;
        let mut scopes = Vector::new(alloc);
        scopes.push(Scope {
            variables: Variables::new(),
        })?;
        let mut functions = Vector::new(alloc);
        functions.push(Function {
            name: Name::new(alloc, b"f")?,
            entry: 0,
            exit: 1,
            parameters: Vector::new(alloc),
            arrays: Vector::new(alloc),
            result: None,
            cells: 1,
        })?;
        Ok(GraphParts {
            files,
            nodes,
            edges,
            functions,
            declared,
            inputs: Vector::new(alloc),
            scopes,
            globals: Vector::new(alloc),
        })
    }

    pub fn graph(self) -> Result<Graph, GraphFault> {
        let alloc = self.alloc;
        match self.parts() {
            Ok(parts) => Graph::new(alloc, parts),
            Err(_) => Err(GraphFault::Memory),
        }
    }
}
