// Reading items from tokens (ISO/IEC 9899:2011, 6.9 and 6.7).
ghost use Rattle.std.specs.Prelude.{◌≡◌, length, option_map, IfOk};
ghost use Rattle.c_parse.specs.Gives.{Gives};
ghost use Rattle.c_parse.specs.Symbols.{is_symbol};
ghost use Rattle.c_parse.specs.ReadingStatements.{name_at};
ghost use Rattle.c_parse.specs.ReadingItems.{is_shared, is_of_functions, is_before, starts_before, past_before, for_variables, by_name, parameter_at, parameters_at, end_at, function_at, past_named, constant_at, enum_at, typed_at, void_at, item_at, items_at};

use crate::cursor::{expect_symbol, first_span, is_same, starts_with, tail, take_type};
use crate::declarations::{after_consts, bracketed, first_expression, first_name};
use crate::expr::{ExprTree, Ident};
use crate::separated::{Part, separated};
use crate::sign::{Sign, Symbol, Terminal};
use crate::statements::body;
use crate::stop::Stop;
use crate::unit::{Body, Item, Parameter};
use c_values::Kind;
use containers::Vector;
use fq_core::{Name, Span};
use std::alloc::{AllocError, Global};

fn is_symbol(sign: &Sign, symbol: Symbol) -> bool
    ensures { result ≡ is_symbol symbol sign.now }
{
    match sign {
        Sign::Symbol(other) => is_same(*other, symbol),
        _ => false,
    }
}

// Whether a word may stand before the type of variables, and of functions.
fn is_shared(sign: &Sign) -> bool
    ensures { result ≡ is_shared sign.now }
{
    is_symbol(sign, Symbol::Static) || is_symbol(sign, Symbol::Const)
}

fn is_of_functions(sign: &Sign) -> bool
    ensures { result ≡ is_of_functions sign.now }
{
    is_symbol(sign, Symbol::Extern) || is_symbol(sign, Symbol::Inline)
}

fn starts_with_word(tokens: &[Terminal]) -> bool
    ensures { result ≡ starts_before tokens.now }
{
    match tokens {
        [] => false,
        [first, ..] => is_shared(&first.sign) || is_of_functions(&first.sign),
    }
}

// What follows the words in front.
fn after_words(tokens: &[Terminal]) -> &[Terminal]
    ensures { result.now ≡ past_before tokens.now }
{
    let mut rest = tokens;
    while starts_with_word(rest) {
        rest = tail(rest);
    }
    rest
}

// Whether variables may be declared behind the words in front.
fn are_for_variables(tokens: &[Terminal]) -> bool
    ensures { result ≡ for_variables tokens.now }
{
    for token in tokens {
        if !is_shared(&token.sign) {
            return !is_of_functions(&token.sign);
        }
    }
    true
}

// The name in front, if there is one.
fn name_of(tokens: &[Terminal]) -> Option<&Name>
    ensures { option_map (λ n. n.now) result ≡ name_at tokens.now }
{
    match tokens {
        [] => None,
        [first, ..] => match &first.sign {
            Sign::Name(name) => Some(name),
            _ => None,
        },
    }
}

/// The name and the length of a parameter, and the tokens behind them.
#[derive(Drop)]
struct Named<'a> {
    name: Option<Ident>,
    length: Option<ExprTree>,
    rest: &'a [Terminal],
}

fn parameter_name(alloc: Global, tokens: &[Terminal]) -> Result<Named<'_>, Stop>
    ensures { Gives (λ x. ((x.name, x.length), x.rest.now)) result (by_name (name_at tokens.now) tokens.now) }
{
    let Some(name) = name_of(tokens) else {
        return Ok(Named {
            name: None,
            length: None,
            rest: tokens,
        });
    };
    let name = name.clone()?;
    let span = first_span(tokens);
    let (length, rest) = bracketed(alloc, tail(tokens))?;
    let name = Some(Ident { name, span });
    Ok(Named { name, length, rest })
}

impl Part for Parameter {
    ghost reads = { parameter_at };

    #[tactic(auto, unfolding(crate::specs::ReadingItems::parameter_at))]
    fn read(alloc: Global, tokens: &[Terminal]) -> Result<(Parameter, &[Terminal]), Stop> {
        let span = first_span(tokens);
        let (kind, rest) = take_type(alloc, after_consts(tokens))?;
        let Named { name, length, rest } = parameter_name(alloc, rest)?;
        Ok((
            Parameter {
                span,
                kind,
                name,
                length,
            },
            rest,
        ))
    }
}

// The parameters of a function, and the closing parenthesis.
#[tactic(auto, unfolding(crate::specs::ReadingItems::parameters_at))]
fn parameters(alloc: Global, tokens: &[Terminal]) -> Result<(Vector<Parameter>, &[Terminal]), Stop>
    ensures { Gives (λ x. (x.0, x.1.now)) result (parameters_at tokens.now) }
{
    if starts_with(tokens, Symbol::Close) {
        return Ok((Vector::new(alloc), tail(tokens)));
    }
    if starts_with(tokens, Symbol::Void) {
        let rest = expect_symbol(tail(tokens), Symbol::Close)?;
        return Ok((Vector::new(alloc), rest));
    }
    separated(alloc, false, Symbol::Close, tokens)
}

// A semicolon, or the block of a function.
#[tactic(auto, unfolding(crate::specs::ReadingItems::end_at))]
fn end(alloc: Global, tokens: &[Terminal]) -> Result<(Option<Body>, &[Terminal]), Stop>
    ensures { Gives (λ x. (x.0, x.1.now)) result (end_at tokens.now) }
{
    if starts_with(tokens, Symbol::Semicolon) {
        return Ok((None, tail(tokens)));
    }
    let rest = expect_symbol(tokens, Symbol::OpenBrace)?;
    let (statements, rest) = body(alloc, rest)?;
    let close = first_span(rest);
    let rest = expect_symbol(rest, Symbol::CloseBrace)?;
    Ok((Some(Body { statements, close }), rest))
}

// What follows the name of a function.
#[tactic(auto, unfolding(crate::specs::ReadingItems::function_at))]
fn function(
    alloc: Global,
    span: Span,
    result_kind: Option<Kind>,
    name: Ident,
    tokens: &[Terminal],
) -> Result<(Item, &[Terminal]), Stop>
    ensures { Gives (λ x. (x.0, x.1.now)) result (function_at span result_kind name tokens.now) }
{
    let rest = expect_symbol(tokens, Symbol::Open)?;
    let (parameters, rest) = parameters(alloc, rest)?;
    let (body, rest) = end(alloc, rest)?;
    Ok((
        Item::Function {
            span,
            result: result_kind,
            name,
            parameters,
            body,
        },
        rest,
    ))
}

impl Part for (Ident, Option<ExprTree>) {
    ghost reads = { constant_at };

    #[tactic(auto, unfolding(crate::specs::ReadingItems::constant_at))]
    fn read(
        alloc: Global,
        tokens: &[Terminal],
    ) -> Result<((Ident, Option<ExprTree>), &[Terminal]), Stop> {
        let span = first_span(tokens);
        let name = first_name(tokens)?;
        let name = Ident { name, span };
        let rest = tail(tokens);
        if !starts_with(rest, Symbol::Assign) {
            return Ok(((name, None), rest));
        }
        let (value, rest) = first_expression(alloc, tail(rest))?;
        Ok(((name, Some(value.into_inner())), rest))
    }
}

// What follows a name that may be there.
fn after_tag(tokens: &[Terminal]) -> &[Terminal]
    ensures { result.now ≡ past_named (name_at tokens.now) tokens.now }
{
    if name_of(tokens).is_some() {
        tail(tokens)
    } else {
        tokens
    }
}

// What follows `enum`.
#[tactic(auto, unfolding(crate::specs::ReadingItems::enum_at))]
fn constants(alloc: Global, span: Span, tokens: &[Terminal]) -> Result<(Item, &[Terminal]), Stop>
    ensures { Gives (λ x. (x.0, x.1.now)) result (enum_at span tokens.now) }
{
    let rest = expect_symbol(after_tag(tokens), Symbol::OpenBrace)?;
    let (list, rest) = separated(alloc, true, Symbol::CloseBrace, rest)?;
    let rest = expect_symbol(rest, Symbol::Semicolon)?;
    Ok((Item::Constants { span, list }, rest))
}

// A function or variables, from the type on; `all` are the tokens with the words before it.
#[tactic(auto, unfolding(crate::specs::ReadingItems::typed_at))]
fn typed<'a>(
    alloc: Global,
    all: &'a [Terminal],
    tokens: &'a [Terminal],
) -> Result<(Item, &'a [Terminal]), Stop>
    ensures { Gives (λ x. (x.0, x.1.now)) result (typed_at all.now tokens.now) }
{
    let span = first_span(all);
    let (kind, rest) = take_type(alloc, tokens)?;
    let name_span = first_span(rest);
    let name = first_name(rest)?;
    let behind = tail(rest);
    if starts_with(behind, Symbol::Open) {
        let name = Ident {
            name,
            span: name_span,
        };
        return function(alloc, span, Some(kind), name, behind);
    }
    if !are_for_variables(all) {
        return Err(Stop::Syntax);
    }
    let (list, rest) = separated(alloc, false, Symbol::Semicolon, rest)?;
    Ok((Item::Variables { span, kind, list }, rest))
}

// A function that gives nothing, from behind `void` on.
#[tactic(auto, unfolding(crate::specs::ReadingItems::void_at))]
fn void_function<'a>(
    alloc: Global,
    all: &'a [Terminal],
    tokens: &'a [Terminal],
) -> Result<(Item, &'a [Terminal]), Stop>
    ensures { Gives (λ x. (x.0, x.1.now)) result (void_at all.now tokens.now) }
{
    let span = first_span(tokens);
    let name = first_name(tokens)?;
    let name = Ident { name, span };
    function(alloc, first_span(all), None, name, tail(tokens))
}

// An item, and the tokens behind it.
#[tactic(auto, unfolding(crate::specs::ReadingItems::item_at))]
fn item(alloc: Global, tokens: &[Terminal]) -> Result<(Item, &[Terminal]), Stop>
    ensures { Gives (λ x. (x.0, x.1.now)) result (item_at tokens.now) }
{
    if starts_with(tokens, Symbol::Enum) {
        return constants(alloc, first_span(tokens), tail(tokens));
    }
    let rest = after_words(tokens);
    if starts_with(rest, Symbol::Void) {
        void_function(alloc, tokens, tail(rest))
    } else {
        typed(alloc, tokens, rest)
    }
}

/// As many items as there are, and the tokens behind them.
pub fn items(alloc: Global, tokens: &[Terminal]) -> Result<(Vector<Item>, &[Terminal]), AllocError>
    ensures { IfOk result (λ x. (x.0, x.1.now) ≡ items_at (length tokens.now) tokens.now) }
{
    let mut list = Vector::new(alloc);
    let mut rest = tokens;
    'items: loop {
        match item(alloc, rest) {
            Ok((next, after)) => {
                list.push(next)?;
                rest = after;
            }
            Err(Stop::Memory) => return Err(AllocError),
            Err(Stop::Syntax) => return Ok((list, rest)),
        }
    }
}
