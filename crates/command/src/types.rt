// What a command is given besides what inputs are searched for (`suite_problem`). What holds of it stands on its type.
ghost use Rattle.std.specs.Prelude.{◌+◌, ◌<◌, ◌^◌, length};
ghost use Rattle.std.proofs.Props.{props};
ghost use Rattle.cfa.specs.Contexts.{IsOnce};
ghost use Rattle.command.specs.Entries.{AllCanStart};

use c_meaning::Input;
use c_typed_trees::Typed;
use cfa::Graph;
use cnf::{Derivation, Formula};
use suite_problem::Entry;

/// The automaton of sources. No walk over it comes twice to one pair of node and context.
#[derive(Drop)]
pub struct Automaton {
    pub graph: Graph,
    ghost once: { IsOnce graph } by { Prim.hlevel props },
}

/// The automaton of sources, and their typed tree.
#[derive(Drop)]
pub struct Trees {
    pub automaton: Automaton,
    pub typed: Typed,
}

/// An entry, and inputs with which runs can begin at it.
#[derive(Clone, Copy)]
pub struct Starts<'a> {
    pub entry: Entry<'a>,
    pub inputs: &'a [Input],
    ghost can_start: { AllCanStart entry inputs.now } by { Prim.hlevel props },
}

/// After how many edges a run is cut.
#[derive(Clone, Copy)]
pub struct Steps {
    pub edges: u64,
    ghost few: { edges + 1 < 2 ^ 64 },
}

/// A formula, and a derivation over it, as a certificate has them.
#[derive(Drop)]
pub struct Certificate {
    pub formula: Formula,
    pub derivation: Derivation,
    ghost few_clauses: { length formula.clauses < 2 ^ 32 },
    ghost few_lines: { length derivation.lines < 2 ^ 32 },
}
