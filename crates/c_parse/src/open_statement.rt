// Statements that are read in two steps: up to a statement in them, and from there on.
ghost use Rattle.std.specs.Prelude.{◌≡◌, ◌+◌, ◌≤◌, length, IfOk};
ghost use Rattle.c_parse.specs.Gives.{Gives};
ghost use Rattle.c_parse.specs.OpenStatements.{Leads, opens, part_of_symbol, for_part, do_end, behind_arms, resume, progress_at, parts_of};
ghost use Rattle.c_parse.specs.ReadingStatements.{labelled_at, statement_in};

use crate::cursor::{expect_symbol, starts_with, tail};
use crate::declarations::boxed_statement;
use crate::expr::{ExprTree, Ident};
use crate::sign::{Symbol, Terminal};
use crate::simple::{begin, next, optional, statement_of_name, test};
use crate::statement::{Form, Statement};
use crate::stop::Stop;
use containers::{Boxed, Vector};
use fq_core::{Name, Span};
use std::alloc::Global;

/// A statement of which a part, a statement in it, is still to be read.
#[derive(Drop)]
pub struct OpenStatement {
    /// The span of its first token.
    pub span: Span,
    pub form: OpenForm,
}

/// What is read of a statement before its part.
#[derive(Drop)]
pub enum OpenForm {
    Label(Ident),
    While(ExprTree),
    Do,
    For {
        first: Option<Boxed<Statement>>,
        test: Option<ExprTree>,
        next: Option<Boxed<Statement>>,
    },
    /// The arms of an `if`, up to the test of one.
    Arm {
        arms: Vector<(ExprTree, Statement)>,
        test: ExprTree,
    },
    /// The arms of an `if`, and the last `else`.
    Otherwise(Vector<(ExprTree, Statement)>),
}

/// How far a statement is read: up to a part of it, whose tokens follow, or to its end.
#[derive(Drop)]
pub enum Progress {
    Part(OpenStatement),
    Whole(Boxed<Statement>),
}

// Whether a statement that begins with this symbol is read in two steps.
pub fn opens(symbol: Symbol) -> bool
    ensures { result ≡ opens symbol }
{
    match symbol {
        Symbol::If | Symbol::While | Symbol::Do | Symbol::For => true,
        _ => false,
    }
}

// What follows `for`, up to the body.
#[tactic(auto, unfolding(crate::specs::OpenStatements::for_part))]
fn for_head(alloc: Global, tokens: &[Terminal]) -> Result<(OpenForm, &[Terminal]), Stop>
    ensures { Gives (λ x. (x.0, x.1.now)) result (for_part tokens.now) }
{
    let rest = expect_symbol(tokens, Symbol::Open)?;
    let (first, rest) = begin(alloc, rest)?;
    let (test, rest) = optional(alloc, rest)?;
    let rest = expect_symbol(rest, Symbol::Semicolon)?;
    let (next, rest) = next(alloc, rest)?;
    let rest = expect_symbol(rest, Symbol::Close)?;
    Ok((OpenForm::For { first, test, next }, rest))
}

// What follows `if`, up to the statement of its first arm.
fn first_arm(alloc: Global, tokens: &[Terminal]) -> Result<(OpenForm, &[Terminal]), Stop>
    ensures { Gives (λ x. (x.0, x.1.now)) result (part_of_symbol Symbol.If tokens.now) }
{
    let (test, rest) = test(alloc, tokens)?;
    let form = OpenForm::Arm {
        arms: Vector::new(alloc),
        test: test.into_inner(),
    };
    Ok((form, rest))
}

// What follows a symbol that opens a statement, up to a part of the statement.
pub fn open_form(
    alloc: Global,
    symbol: Symbol,
    tokens: &[Terminal],
) -> Result<(OpenForm, &[Terminal]), Stop>
    ensures { Gives (λ x. (x.0, x.1.now)) result (part_of_symbol symbol tokens.now) }
{
    match symbol {
        Symbol::If => first_arm(alloc, tokens),
        Symbol::While => {
            let (test, rest) = test(alloc, tokens)?;
            Ok((OpenForm::While(test.into_inner()), rest))
        }
        Symbol::Do => Ok((OpenForm::Do, tokens)),
        Symbol::For => for_head(alloc, tokens),
        _ => Err(Stop::Syntax),
    }
}

// What follows a name: the colon of a label, or a simple statement.
#[tactic(auto, unfolding(crate::specs::ReadingStatements::labelled_at))]
pub fn labelled(
    alloc: Global,
    span: Span,
    name: Name,
    tokens: &[Terminal],
) -> Result<(Progress, &[Terminal]), Stop>
    ensures same { Leads (λ x. progress_at statement_in x.0 x.1.now) result (labelled_at statement_in span name tokens.now) }
    ensures shorter { IfOk result (λ x. length x.1.now ≤ length tokens.now) }
{
    if starts_with(tokens, Symbol::Colon) {
        let form = OpenForm::Label(Ident { name, span });
        let part = OpenStatement { span, form };
        return Ok((Progress::Part(part), tail(tokens)));
    }
    let (simple, rest) = statement_of_name(alloc, span, name, tokens)?;
    let rest = expect_symbol(rest, Symbol::Semicolon)?;
    Ok((Progress::Whole(simple), rest))
}

// What follows the body of a `do`.
#[tactic(auto, unfolding(crate::specs::OpenStatements::do_end))]
fn do_end(
    alloc: Global,
    span: Span,
    body: Boxed<Statement>,
    tokens: &[Terminal],
) -> Result<(Boxed<Statement>, &[Terminal]), Stop>
    ensures { Gives (λ x. (x.0, x.1.now)) result (do_end span body tokens.now) }
{
    let rest = expect_symbol(tokens, Symbol::While)?;
    let (test, rest) = test(alloc, rest)?;
    let rest = expect_symbol(rest, Symbol::Semicolon)?;
    let test = test.into_inner();
    Ok((boxed_statement(alloc, span, Form::Do { body, test })?, rest))
}

// What follows the arms of an `if`: another arm, `else`, or nothing of it.
#[tactic(auto, unfolding(crate::specs::OpenStatements::behind_arms))]
fn behind_arms(
    alloc: Global,
    span: Span,
    arms: Vector<(ExprTree, Statement)>,
    tokens: &[Terminal],
) -> Result<(Progress, &[Terminal]), Stop>
    ensures same { Leads (λ x. progress_at statement_in x.0 x.1.now) result (behind_arms statement_in span arms tokens.now) }
    ensures shorter { IfOk result (λ x. length x.1.now + parts_of x.0 ≤ length tokens.now) }
{
    if !starts_with(tokens, Symbol::Else) {
        let otherwise = None;
        let whole = boxed_statement(alloc, span, Form::If { arms, otherwise })?;
        return Ok((Progress::Whole(whole), tokens));
    }
    let behind = tail(tokens);
    if !starts_with(behind, Symbol::If) {
        let form = OpenForm::Otherwise(arms);
        let part = OpenStatement { span, form };
        return Ok((Progress::Part(part), behind));
    }
    let (test, rest) = test(alloc, tail(behind))?;
    let form = OpenForm::Arm {
        arms,
        test: test.into_inner(),
    };
    let part = OpenStatement { span, form };
    Ok((Progress::Part(part), rest))
}

// What an open statement is once its part was read, and what follows that part.
pub fn resumed(
    alloc: Global,
    outer: OpenStatement,
    body: Boxed<Statement>,
    tokens: &[Terminal],
) -> Result<(Progress, &[Terminal]), Stop>
    ensures same { Leads (λ x. progress_at statement_in x.0 x.1.now) result (resume statement_in outer body tokens.now) }
    ensures shorter { IfOk result (λ x. length x.1.now + parts_of x.0 ≤ length tokens.now) }
{
    let OpenStatement { span, form } = outer;
    let form = match form {
        OpenForm::Label(name) => Form::Label { name, body },
        OpenForm::While(test) => Form::While { test, body },
        OpenForm::For { first, test, next } => Form::For {
            first,
            test,
            next,
            body,
        },
        OpenForm::Otherwise(arms) => Form::If {
            arms,
            otherwise: Some(body),
        },
        OpenForm::Do => {
            let (whole, rest) = do_end(alloc, span, body, tokens)?;
            return Ok((Progress::Whole(whole), rest));
        }
        OpenForm::Arm { arms, test } => {
            let mut arms = arms;
            arms.push((test, body.into_inner()))?;
            return behind_arms(alloc, span, arms, tokens);
        }
    };
    let whole = boxed_statement(alloc, span, form)?;
    Ok((Progress::Whole(whole), tokens))
}
