// The typing of expressions.
ghost use Rattle.std.specs.Prelude.{◌≡◌, ◌&&◌, map, slice_get, IfOk, OnOk};
ghost use Rattle.cfa.specs.Kinds.{same_kind};
ghost use Rattle.c_type_rules.specs.Rule.{after, made_by};
ghost use Rattle.c_type_rules.specs.Expressions.{integer, piece, typing, argument, arguments, call_rule, constant, joined, lent, same_length};

use crate::constants::{Folded, constant_value};
use crate::kinds::promotion;
use crate::parts::{
    binary_of, call_of, called, choice_of, converted_to, fitted, load_of, missing_at, unary_of,
};
use crate::scopes::ParameterKind;
use crate::typer::{Given, Sort, Typer};
use c_parse::{ExprForm, ExprTree};
use c_typed_trees::{TypedCall, TypedExpr, TypedExprForm};
use c_values::Kind;
use cfa::Variable;
use containers::{Boxed, Vector};
use fq_core::{Name, Span};
use std::alloc::{AllocError, Global};

impl Typer {
    /// An expression that must be an integer.
    #[cycle(typing)]
    #[tactic(auto, using(crate::proofs::ExpressionLaws::integer_laws))]
    pub fn integer(&mut self, alloc: Global, tree: &ExprTree) -> Result<TypedExpr, AllocError>
        ensures made { IfOk result (λ e. e ≡ made_by (integer (piece tree.now)) self.old) }
        ensures state { OnOk result (self.new ≡ after (integer (piece tree.now)) self.old) }
    {
        match self.sort(alloc, tree)? {
            Sort::Value(e) => Ok(e),
            Sort::Array(_variable) => {
                self.fault(33, tree.span);
                missing_at(alloc, tree.span)
            }
            Sort::Other => {
                self.fault(33, tree.span);
                missing_at(alloc, tree.span)
            }
        }
    }

    /// What an expression stands for.
    #[cycle(typing)]
    #[tactic(auto, using(crate::proofs::ExpressionLaws::form_laws))]
    pub fn sort(&mut self, alloc: Global, tree: &ExprTree) -> Result<Sort, AllocError>
        ensures made { IfOk result (λ sort. sort ≡ made_by (typing tree.now) self.old) }
        ensures state { OnOk result (self.new ≡ after (typing tree.now) self.old) }
    {
        let span = tree.span;
        match &tree.form {
            ExprForm::Number(value, kind) => Ok(Sort::Value(TypedExpr {
                span,
                kind: *kind,
                form: TypedExprForm::Constant(*value),
            })),
            ExprForm::Binary(op, x, y) => {
                let a = self.integer(alloc, x)?;
                let b = self.integer(alloc, y)?;
                Ok(Sort::Value(binary_of(alloc, span, *op, a, b)?))
            }
            ExprForm::Unary(op, x) => {
                let a = self.integer(alloc, x)?;
                Ok(Sort::Value(unary_of(alloc, span, *op, a)?))
            }
            ExprForm::Cast(kind, x) => {
                let a = self.integer(alloc, x)?;
                let form = TypedExprForm::Convert(Boxed::new(alloc, a)?);
                Ok(Sort::Value(TypedExpr {
                    span,
                    kind: *kind,
                    form,
                }))
            }
            ExprForm::Plus(x) => {
                let a = self.integer(alloc, x)?;
                let kind = promotion(a.kind);
                let form = TypedExprForm::Convert(Boxed::new(alloc, a)?);
                Ok(Sort::Value(TypedExpr { span, kind, form }))
            }
            ExprForm::Both(x, y) => {
                let cell = self.new_temporary()?;
                let left = Boxed::new(alloc, self.integer(alloc, x)?)?;
                let right = Boxed::new(alloc, self.integer(alloc, y)?)?;
                Ok(Sort::Value(TypedExpr {
                    span,
                    kind: Kind::INT,
                    form: TypedExprForm::Both { left, right, cell },
                }))
            }
            ExprForm::Name(name) => self.named(alloc, span, name),
            ExprForm::Element(name, x) => {
                let variable = self.array_at(alloc, span, name)?;
                let index = Some(self.integer(alloc, x)?);
                Ok(Sort::Value(load_of(alloc, span, variable, index)?))
            }
            ExprForm::Call(name, arguments) => {
                let (kind, call) = self.call(alloc, span, name, arguments.as_slice())?;
                called(alloc, span, kind, call)
            }
            ExprForm::Either(x, y) => {
                let cell = self.new_temporary()?;
                let left = Boxed::new(alloc, self.integer(alloc, x)?)?;
                let right = Boxed::new(alloc, self.integer(alloc, y)?)?;
                Ok(Sort::Value(TypedExpr {
                    span,
                    kind: Kind::INT,
                    form: TypedExprForm::Either { left, right, cell },
                }))
            }
            ExprForm::Choice(x, y, z) => {
                let cell = self.new_temporary()?;
                let test = self.integer(alloc, x)?;
                let yes = self.integer(alloc, y)?;
                let no = self.integer(alloc, z)?;
                Ok(Sort::Value(choice_of(alloc, span, test, yes, no, cell)?))
            }
        }
    }

    /// A call, and the kind of its result.
    #[cycle(typing)]
    #[tactic(auto, using(crate::proofs::ExpressionLaws::call_laws))]
    pub fn call(
        &mut self,
        alloc: Global,
        span: Span,
        name: &Name,
        trees: &[ExprTree],
    ) -> Result<(Option<Kind>, TypedCall), AllocError>
        ensures made { IfOk result (λ c. c ≡ made_by (call_rule span name.now (map piece trees.now)) self.old) }
        ensures state { OnOk result (self.new ≡ after (call_rule span name.now (map piece trees.now)) self.old) }
    {
        let cell = self.new_temporary()?;
        let function = self.function_at(alloc, span, name, trees.len())?;
        let given = self.arguments(alloc, trees, function.parameters.as_slice())?;
        Ok((function.result, call_of(&function, given, cell)))
    }

    // The arguments of a call.
    #[cycle(typing)]
    fn arguments(
        &mut self,
        alloc: Global,
        trees: &[ExprTree],
        parameters: &[ParameterKind],
    ) -> Result<Given, AllocError>
        ensures made { IfOk result (λ given. given ≡ made_by (arguments (map piece trees.now) parameters.now) self.old) }
        ensures state { OnOk result (self.new ≡ after (arguments (map piece trees.now) parameters.now) self.old) }
    {
        let mut given = Given {
            words: Vector::new(alloc),
            arrays: Vector::new(alloc),
        };
        for (i, tree) in trees.iter().enumerate() {
            self.argument(alloc, parameter_at(parameters, i), tree, &mut given)?;
        }
        Ok(given)
    }

    // An argument for a parameter, if there is one.
    #[cycle(typing)]
    #[tactic(auto, using(crate::proofs::ExpressionLaws::argument_laws))]
    fn argument(
        &mut self,
        alloc: Global,
        parameter: Option<ParameterKind>,
        tree: &ExprTree,
        given: &mut Given,
    ) -> Result<(), AllocError>
        ensures made { OnOk result (given.new ≡ joined given.old (made_by (argument parameter (piece tree.now)) self.old)) }
        ensures state { OnOk result (self.new ≡ after (argument parameter (piece tree.now)) self.old) }
    {
        match parameter {
            None => {
                let word = self.integer(alloc, tree)?;
                given.words.push(word)
            }
            Some(parameter) => match parameter.length {
                None => {
                    let word = self.integer(alloc, tree)?;
                    given.words.push(converted_to(alloc, parameter.kind, word)?)
                }
                Some(length) => {
                    let sort = self.sort(alloc, tree)?;
                    self.lent(tree.span, parameter.kind, length, sort, given)
                }
            },
        }
    }

    // An array argument, from what it stands for.
    #[tactic(auto, using(crate::proofs::ExpressionLaws::lent_laws))]
    fn lent(
        &mut self,
        span: Span,
        kind: Kind,
        length: u32,
        sort: Sort,
        given: &mut Given,
    ) -> Result<(), AllocError>
        ensures made { OnOk result (given.new ≡ joined given.old (made_by (lent span kind length sort) self.old)) }
        ensures state { OnOk result (self.new ≡ after (lent span kind length sort) self.old) }
    {
        match sort {
            Sort::Value(_value) => {
                self.fault(35, span);
                Ok(())
            }
            Sort::Array(variable) => {
                let fits = is_array_of(&variable, kind, length);
                self.expect(35, span, fits);
                given.arrays.push(variable)
            }
            Sort::Other => {
                self.fault(35, span);
                Ok(())
            }
        }
    }

    /// The value of a constant expression, converted to a kind where there is one.
    #[tactic(auto, using(crate::proofs::ExpressionLaws::constant_laws))]
    pub fn constant(
        &mut self,
        alloc: Global,
        kind: Option<Kind>,
        tree: &ExprTree,
    ) -> Result<Option<u64>, AllocError>
        ensures made { IfOk result (λ v. v ≡ made_by (constant kind tree.now) self.old) }
        ensures state { OnOk result (self.new ≡ after (constant kind tree.now) self.old) }
    {
        let before = self.number_from(0);
        let value = self.integer(alloc, tree)?;
        let _uncounted = self.number_from(before);
        let value = fitted(alloc, kind, value)?;
        match constant_value(&value) {
            Folded::Value(v) => Ok(Some(v)),
            Folded::Varying | Folded::Undefined => {
                self.fault(38, tree.span);
                Ok(None)
            }
        }
    }
}

fn parameter_at(parameters: &[ParameterKind], i: usize) -> Option<ParameterKind>
    ensures { result ≡ slice_get parameters.now i }
{
    match parameters.get(i) {
        None => None,
        Some(parameter) => Some(*parameter),
    }
}

fn is_array_of(variable: &Variable, kind: Kind, length: u32) -> bool
    ensures { result ≡ (same_kind variable.now.kind kind && same_length variable.now.length length) }
{
    variable.kind == kind
        && match variable.length {
            None => false,
            Some(own) => own == length,
        }
}
