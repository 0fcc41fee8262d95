// Reading declarators and declarations (ISO/IEC 9899:2011, 6.7).
ghost use Rattle.std.specs.Prelude.{◌≡◌, length, IfOk};
ghost use Rattle.c_parse.specs.Gives.{Gives};
ghost use Rattle.c_parse.specs.StatementTrees.{statement};
ghost use Rattle.c_parse.specs.ReadingStatements.{choice_in, name_at, bracketed_at, first_at, declarator_at, declarators_at, past_consts, starts_local, local_at};

use crate::cursor::{expect_symbol, first_span, starts_with, starts_with_type, tail, take_type};
use crate::expr::{ExprTree, Ident};
use crate::expressions::expression_at;
use crate::separated::{Part, separated};
use crate::sign::{Sign, Symbol, Terminal};
use crate::statement::{Declarator, Form, Initial, Statement};
use crate::stop::Stop;
use containers::{Boxed, Vector};
use fq_core::{Name, Span};
use std::alloc::{AllocError, Global};

// An expression.
#[tactic(auto, unfolding(crate::specs::ReadingStatements::choice_in))]
pub fn first_expression(
    alloc: Global,
    tokens: &[Terminal],
) -> Result<(Boxed<ExprTree>, &[Terminal]), Stop>
    ensures { Gives (λ x. (x.0, x.1.now)) result (choice_in tokens.now) }
{
    expression_at(alloc, 0, tokens)
}

impl Part for ExprTree {
    ghost reads = { choice_in };

    fn read(alloc: Global, tokens: &[Terminal]) -> Result<(ExprTree, &[Terminal]), Stop> {
        let (tree, rest) = first_expression(alloc, tokens)?;
        Ok((tree.into_inner(), rest))
    }
}

// A statement in a box of its own.
pub fn boxed_statement(
    alloc: Global,
    span: Span,
    form: Form,
) -> Result<Boxed<Statement>, AllocError>
    ensures { IfOk result (λ x. x ≡ statement span form) }
{
    Boxed::new(alloc, Statement { span, form })
}

// The name in front.
pub fn first_name(tokens: &[Terminal]) -> Result<Name, Stop>
    ensures { Gives (λ x. x) result (name_at tokens.now) }
{
    match tokens {
        [] => Err(Stop::Syntax),
        [first, ..] => match &first.sign {
            Sign::Name(name) => Ok(name.clone()?),
            _ => Err(Stop::Syntax),
        },
    }
}

// An expression in brackets, if there is one.
#[tactic(auto, unfolding(crate::specs::ReadingStatements::bracketed_at))]
pub fn bracketed(
    alloc: Global,
    tokens: &[Terminal],
) -> Result<(Option<ExprTree>, &[Terminal]), Stop>
    ensures { Gives (λ x. (x.0, x.1.now)) result (bracketed_at tokens.now) }
{
    if !starts_with(tokens, Symbol::OpenIndex) {
        return Ok((None, tokens));
    }
    let (tree, rest) = first_expression(alloc, tail(tokens))?;
    let rest = expect_symbol(rest, Symbol::CloseIndex)?;
    Ok((Some(tree.into_inner()), rest))
}

// What a name begins as, if it is given.
#[tactic(auto, unfolding(crate::specs::ReadingStatements::first_at))]
fn first_value(alloc: Global, tokens: &[Terminal]) -> Result<(Option<Initial>, &[Terminal]), Stop>
    ensures { Gives (λ x. (x.0, x.1.now)) result (first_at tokens.now) }
{
    if !starts_with(tokens, Symbol::Assign) {
        return Ok((None, tokens));
    }
    let rest = tail(tokens);
    if starts_with(rest, Symbol::OpenBrace) {
        let (list, rest) = separated(alloc, true, Symbol::CloseBrace, tail(rest))?;
        return Ok((Some(Initial::List(list)), rest));
    }
    let (tree, rest) = first_expression(alloc, rest)?;
    Ok((Some(Initial::One(tree.into_inner())), rest))
}

impl Part for Declarator {
    ghost reads = { declarator_at };

    #[tactic(auto, unfolding(crate::specs::ReadingStatements::declarator_at))]
    fn read(alloc: Global, tokens: &[Terminal]) -> Result<(Declarator, &[Terminal]), Stop> {
        let span = first_span(tokens);
        let name = first_name(tokens)?;
        let (length, rest) = bracketed(alloc, tail(tokens))?;
        let (first, rest) = first_value(alloc, rest)?;
        let name = Ident { name, span };
        Ok((
            Declarator {
                name,
                length,
                first,
            },
            rest,
        ))
    }
}

// What follows the words `const` in front.
pub fn after_consts(tokens: &[Terminal]) -> &[Terminal]
    ensures { result.now ≡ past_consts tokens.now }
{
    let mut rest = tokens;
    while starts_with(rest, Symbol::Const) {
        rest = tail(rest);
    }
    rest
}

pub fn starts_with_local(tokens: &[Terminal]) -> bool
    ensures { result ≡ starts_local tokens.now }
{
    starts_with(tokens, Symbol::Const) || starts_with_type(tokens)
}

// A declaration in a block.
#[tactic(auto, unfolding(crate::specs::ReadingStatements::local_at))]
pub fn local(alloc: Global, tokens: &[Terminal]) -> Result<(Boxed<Statement>, &[Terminal]), Stop>
    ensures { Gives (λ x. (x.0, x.1.now)) result (local_at tokens.now) }
{
    let span = first_span(tokens);
    let (kind, rest) = take_type(alloc, after_consts(tokens))?;
    let (list, rest) = separated(alloc, false, Symbol::Semicolon, rest)?;
    Ok((
        boxed_statement(alloc, span, Form::Local { kind, list })?,
        rest,
    ))
}
