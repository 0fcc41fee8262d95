// What names in expressions stand for.
ghost use Rattle.std.specs.Prelude.{◌≡◌, IfOk, OnOk};
ghost use Rattle.c_type_rules.specs.Rule.{after, made_by};
ghost use Rattle.c_type_rules.specs.Expressions.{name_at, array_at, function_at, callable, no_function};

use crate::parts::{load_of, missing_at, no_variable};
use crate::scopes::{Meaning, Signature};
use crate::typer::{Sort, Typer};
use c_typed_trees::{TypedExpr, TypedExprForm};
use c_values::Kind;
use cfa::Variable;
use containers::{TryClone, Vector};
use fq_core::{Name, Span};
use std::alloc::{AllocError, Global};

impl Typer {
    /// A name that stands alone.
    #[tactic(auto, using(crate::proofs::ExpressionLaws::name_laws))]
    pub(crate) fn named(
        &mut self,
        alloc: Global,
        span: Span,
        name: &Name,
    ) -> Result<Sort, AllocError>
        ensures made { IfOk result (λ sort. sort ≡ made_by (name_at span name.now) self.old) }
        ensures state { OnOk result (self.new ≡ after (name_at span name.now) self.old) }
    {
        match self.bound.find(name) {
            None => {
                self.fault(30, span);
                Ok(Sort::Value(missing_at(alloc, span)?))
            }
            Some(bound) => match &bound.meaning {
                Meaning::Function(_) => Ok(Sort::Other),
                Meaning::Constant(value) => Ok(Sort::Value(TypedExpr {
                    span,
                    kind: Kind::INT,
                    form: TypedExprForm::Constant(*value),
                })),
                Meaning::Variable(variable) => {
                    let copy = variable.try_clone(alloc)?;
                    match copy.length {
                        None => Ok(Sort::Value(load_of(alloc, span, copy, None)?)),
                        Some(_) => Ok(Sort::Array(copy)),
                    }
                }
            },
        }
    }

    /// The array of a name before an index.
    #[tactic(auto, using(crate::proofs::ExpressionLaws::name_laws))]
    pub fn array_at(
        &mut self,
        alloc: Global,
        span: Span,
        name: &Name,
    ) -> Result<Variable, AllocError>
        ensures made { IfOk result (λ v. v ≡ made_by (array_at span name.now) self.old) }
        ensures state { OnOk result (self.new ≡ after (array_at span name.now) self.old) }
    {
        let code = match self.bound.find(name) {
            None => 30,
            Some(bound) => match &bound.meaning {
                Meaning::Function(_) | Meaning::Constant(_) => 33,
                Meaning::Variable(variable) => match variable.length {
                    None => 33,
                    Some(_) => return variable.try_clone(alloc),
                },
            },
        };
        self.fault(code, span);
        no_variable(alloc)
    }

    // A function that is called with so many arguments.
    #[tactic(auto, using(crate::proofs::ExpressionLaws::callable_laws))]
    fn callable(&mut self, span: Span, count: usize, function: Signature) -> Signature
        ensures made { result ≡ made_by (callable span count function) self.old }
        ensures state { self.new ≡ after (callable span count function) self.old }
    {
        self.expect(32, span, function.parameters.len() == count);
        self.expect(39, span, function.callee.is_some());
        function
    }

    /// The function of a name before so many arguments.
    #[tactic(auto, using(crate::proofs::ExpressionLaws::name_laws))]
    pub(crate) fn function_at(
        &mut self,
        alloc: Global,
        span: Span,
        name: &Name,
        count: usize,
    ) -> Result<Signature, AllocError>
        ensures made { IfOk result (λ f. f ≡ made_by (function_at span name.now count) self.old) }
        ensures state { OnOk result (self.new ≡ after (function_at span name.now count) self.old) }
    {
        let code = match self.bound.find(name) {
            None => 30,
            Some(bound) => match &bound.meaning {
                Meaning::Variable(_) | Meaning::Constant(_) => 33,
                Meaning::Function(function) => {
                    let copy = copied_function(alloc, function)?;
                    return Ok(self.callable(span, count, copy));
                }
            },
        };
        self.fault(code, span);
        Ok(no_function(alloc))
    }
}

fn copied_function(alloc: Global, function: &Signature) -> Result<Signature, AllocError>
    ensures { IfOk result (λ copy. copy ≡ function.now) }
{
    Ok(Signature {
        callee: function.callee,
        defined: function.defined,
        result: function.result,
        parameters: Vector::from_vec(Vec::from_slice(alloc, function.parameters.as_slice())?),
    })
}

// What stands for the function of a name that has none.
fn no_function(alloc: Global) -> Signature
    ensures { result ≡ no_function }
{
    Signature {
        callee: None,
        defined: false,
        result: Some(Kind::INT),
        parameters: Vector::new(alloc),
    }
}
