ghost use Rattle.std.specs.Prelude.{◌≡◌, ◌+◌, IfOk};
ghost use Rattle.automata.specs.Building.{Counted};
ghost use Rattle.automata.specs.Tree.{dot, either, leaves};
ghost use Rattle.automata.specs.Unroll.{row_of, dot_of, either_of, maybe_of, many_of};
ghost use Rattle.automata.specs.Views.{view};

use crate::node::Node;
use crate::part::{Extent, Part, boxed, copy, extent_at, many_node, maybe_node};
use circuit::Memory;
use std::alloc::Global;

/// A sum, or want of memory where it is too large.
pub fn sum(a: usize, b: usize) -> Result<usize, Memory>
    ensures { IfOk result (λ c. c ≡ a + b) }
{
    match a.checked_add(b) {
        Some(c) => Ok(c),
        None => Err(Memory),
    }
}

/// A new node for one part after the other.
#[tactic(auto, using(crate::proofs::Passes::up_laws), unfolding(crate::specs::Views::view))]
fn new_dot(alloc: Global, a: Part, b: Part) -> Result<Part, Memory>
    requires a { Counted a }
    requires b { Counted b }
    ensures node { IfOk result (λ p. view p.node ≡ dot (leaves (view a.node)) (view a.node) (view b.node)) }
    ensures counts { IfOk result (λ p. Counted p) }
{
    let leaves = sum(a.leaves, b.leaves)?;
    let node = Node::Dot {
        leaves: a.leaves,
        left: boxed(alloc, a.node)?,
        right: boxed(alloc, b.node)?,
    };
    Ok(Part { node, leaves })
}

/// A new node for a choice.
#[tactic(auto, using(crate::proofs::Passes::up_laws), unfolding(crate::specs::Views::view))]
fn new_either(alloc: Global, a: Part, b: Part) -> Result<Part, Memory>
    requires a { Counted a }
    requires b { Counted b }
    ensures node { IfOk result (λ p. view p.node ≡ either (leaves (view a.node)) (view a.node) (view b.node)) }
    ensures counts { IfOk result (λ p. Counted p) }
{
    let leaves = sum(a.leaves, b.leaves)?;
    let node = Node::Either {
        leaves: a.leaves,
        left: boxed(alloc, a.node)?,
        right: boxed(alloc, b.node)?,
    };
    Ok(Part { node, leaves })
}

/// Zero matches or one.
#[tactic(auto, using(crate::proofs::Building::joined))]
pub fn maybe_part(alloc: Global, a: Part) -> Result<Part, Memory>
    requires a { Counted a }
    ensures node { IfOk result (λ p. view p.node ≡ maybe_of (view a.node)) }
    ensures counts { IfOk result (λ p. Counted p) }
{
    let node = maybe_node(alloc, a.node)?;
    Ok(Part {
        node,
        leaves: a.leaves,
    })
}

/// One part after the other, where both have leaves: a short end of the first is joined with the second.
#[tactic(auto, using(crate::proofs::Passes::up_laws, crate::proofs::Building::rows), unfolding(crate::specs::Views::view))]
fn row_part(alloc: Global, a: Part, b: Part) -> Result<Part, Memory>
    requires a { Counted a }
    requires b { Counted b }
    ensures node { IfOk result (λ p. view p.node ≡ row_of (view a.node) (view b.node)) }
    ensures counts { IfOk result (λ p. Counted p) }
{
    let Part {
        node,
        leaves: all_leaves,
    } = a;
    match node {
        Node::Dot {
            leaves,
            left,
            right,
        } => {
            let right_leaves = all_leaves - leaves;
            if right_leaves < leaves {
                let end = Part {
                    node: right.into_inner(),
                    leaves: right_leaves,
                };
                let end = row_part(alloc, end, b)?;
                let start = Part {
                    node: left.into_inner(),
                    leaves,
                };
                return new_dot(alloc, start, end);
            }
            let node = Node::Dot {
                leaves,
                left,
                right,
            };
            let whole = Part {
                node,
                leaves: all_leaves,
            };
            new_dot(alloc, whole, b)
        }
        other => {
            let whole = Part {
                node: other,
                leaves: all_leaves,
            };
            new_dot(alloc, whole, b)
        }
    }
}

/// One part after the other.
#[tactic(auto, using(crate::proofs::Building::joined))]
pub fn dot_part(alloc: Global, a: Part, b: Part) -> Result<Part, Memory>
    requires a { Counted a }
    requires b { Counted b }
    ensures node { IfOk result (λ p. view p.node ≡ dot_of (view a.node) (view b.node)) }
    ensures counts { IfOk result (λ p. Counted p) }
{
    match extent_at(&a.node) {
        Extent::Never => Ok(a),
        Extent::State => Ok(b),
        Extent::Leaves => match extent_at(&b.node) {
            Extent::Never => Ok(b),
            Extent::State => Ok(a),
            Extent::Leaves => row_part(alloc, a, b),
        },
    }
}

/// One part or the other.
#[tactic(auto, using(crate::proofs::Building::joined))]
pub fn either_part(alloc: Global, a: Part, b: Part) -> Result<Part, Memory>
    requires a { Counted a }
    requires b { Counted b }
    ensures node { IfOk result (λ p. view p.node ≡ either_of (view a.node) (view b.node)) }
    ensures counts { IfOk result (λ p. Counted p) }
{
    match extent_at(&a.node) {
        Extent::Never => Ok(b),
        Extent::State => maybe_part(alloc, b),
        Extent::Leaves => match extent_at(&b.node) {
            Extent::Never => Ok(a),
            Extent::State => maybe_part(alloc, a),
            Extent::Leaves => new_either(alloc, a, b),
        },
    }
}
