// Where a function runs.
ghost use Rattle.std.specs.Prelude.{◌≡◌};
ghost use Rattle.tree_meaning.specs.Running.{FitUnit};

use crate::activation::Activation;
use c_typed_trees::Typed;
use std::alloc::Global;
use std::marker::Model;

/// A unit, and the function of it that runs.
#[derive(Drop)]
pub(crate) struct Scene<'a> {
    alloc: Global,
    unit: &'a Typed,
    activation: Activation,
}

impl<'a> Model for Scene<'a> {
    ghost use Rattle.std.specs.Coded.{codes};
    ghost use Rattle.tree_meaning.specs.Running.{Scene as Place, FitUnit};
    ghost use Rattle.c_typed_trees.specs.contracts.expression.TypedExprForm as e;
    ghost use Rattle.c_typed_trees.specs.contracts.statement.TypedForm as f;

    ghost Value = { Place };

    ghost coded = { Prim.hlevel (codes, e.the_row.coded, f.the_row.coded) };

    ghost view = { λ s. record { unit = s.unit.now; activation = s.activation } };

    ghost invariant = { λ s. FitUnit s.unit.now };
}

impl<'a> Scene<'a> {
    pub(crate) fn new(alloc: Global, unit: &'a Typed, activation: Activation) -> Scene<'a>
        requires { FitUnit unit.now }
        ensures { result ≡ record { unit = unit.now; activation = activation } }
    {
        Scene {
            alloc,
            unit,
            activation,
        }
    }

    pub(crate) fn alloc(&self) -> Global {
        self.alloc
    }

    pub(crate) fn unit(&self) -> &'a Typed
        ensures unit { result.now ≡ self.now.unit }
        ensures fits { FitUnit self.now.unit }
    {
        self.unit
    }

    pub(crate) fn activation(&self) -> &Activation
        ensures { result.now ≡ self.now.activation }
    {
        &self.activation
    }
}
