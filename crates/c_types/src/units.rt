// The typing of items.
ghost use Rattle.std.specs.Prelude.{◌≡◌, OnOk, IfOk};
ghost use Rattle.c_type_rules.specs.Rule.{after, made_by};
ghost use Rattle.c_types.specs.Units.{item_rule, items_rule, joined_parts};

use crate::functions::function;
use crate::globals::{constants, globals};
use crate::program::Program;
use c_parse::Item;
use c_type_rules::Typer;
use c_typed_trees::{Global as GlobalVariable, TypedFunction};
use containers::Vector;
use std::alloc::{AllocError, Global};

/// What the items of a unit are.
#[derive(Drop)]
pub struct Parts {
    pub globals: Vector<GlobalVariable>,
    pub functions: Vector<TypedFunction>,
}

// An item of a unit.
#[tactic(auto, using(crate::proofs::UnitLaws::item_laws))]
fn item(
    typer: &mut Typer,
    alloc: Global,
    program: &Program,
    tree: &Item,
    parts: &mut Parts,
) -> Result<(), AllocError>
    ensures made { OnOk result (parts.new ≡ joined_parts parts.old (made_by (item_rule program.now tree.now) typer.old)) }
    ensures state { OnOk result (typer.new ≡ after (item_rule program.now tree.now) typer.old) }
{
    match tree {
        Item::Function {
            span,
            result: kind,
            name,
            parameters,
            body,
        } => {
            let callee = program.callee(&name.name)?;
            function(
                typer,
                alloc,
                callee,
                *span,
                *kind,
                name,
                parameters.as_slice(),
                body,
                &mut parts.functions,
            )
        }
        Item::Variables { kind, list, .. } => {
            globals(typer, alloc, *kind, list.as_slice(), &mut parts.globals)
        }
        Item::Constants { list, .. } => constants(typer, alloc, list.as_slice()),
    }
}

/// The items of a unit.
pub(crate) fn items(
    typer: &mut Typer,
    alloc: Global,
    program: &Program,
    trees: &[Item],
) -> Result<Parts, AllocError>
    ensures made { IfOk result (λ parts. parts ≡ made_by (items_rule program.now trees.now) typer.old) }
    ensures state { OnOk result (typer.new ≡ after (items_rule program.now trees.now) typer.old) }
{
    let mut parts = Parts {
        globals: Vector::new(alloc),
        functions: Vector::new(alloc),
    };
    for tree in trees {
        item(typer, alloc, program, tree, &mut parts)?;
    }
    Ok(parts)
}
