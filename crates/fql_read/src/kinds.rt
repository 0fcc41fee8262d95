// Kinds of statements.
ghost use Rattle.std.specs.Prelude.{◌≡◌, find, length};
ghost use Rattle.fql_tokens.specs.Spelling.{is_written};
ghost use Rattle.fql_read.specs.Gives.{Gives};
ghost use Rattle.fql_read.specs.Forms.{kind_spelling, kind_of};
ghost use Rattle.fql_read.specs.Tables.{kind_in};
ghost use Rattle.fql_read.specs.Reading.{one_at, kinds_at, kinds_in};

use crate::cursor::{expect_mark, others, starts_with};
use crate::stop::Stop;
use containers::Vector;
use fq_core::StatementKind;
use fql_tokens::{Mark, Sign, Token, is_written};
use std::alloc::Global;

const KINDS: [StatementKind; 14] = [
    StatementKind::If,
    StatementKind::For,
    StatementKind::While,
    StatementKind::Do,
    StatementKind::Switch,
    StatementKind::Assign,
    StatementKind::Call,
    StatementKind::Return,
    StatementKind::Decl,
    StatementKind::Assert,
    StatementKind::Assume,
    StatementKind::Jump,
    StatementKind::Label,
    StatementKind::Empty,
];

fn kind_spelling(kind: StatementKind) -> &'static [u8]
    ensures { result.now ≡ kind_spelling kind }
{
    match kind {
        StatementKind::If => b"IF",
        StatementKind::For => b"FOR",
        StatementKind::While => b"WHILE",
        StatementKind::Do => b"DO",
        StatementKind::Switch => b"SWITCH",
        StatementKind::Assign => b"ASSIGN",
        StatementKind::Call => b"CALL",
        StatementKind::Return => b"RETURN",
        StatementKind::Decl => b"DECL",
        StatementKind::Assert => b"ASSERT",
        StatementKind::Assume => b"ASSUME",
        StatementKind::Jump => b"JUMP",
        StatementKind::Label => b"LABEL",
        StatementKind::Empty => b"EMPTY",
    }
}

fn kind_among(kinds: &[StatementKind], text: &[u8]) -> Option<StatementKind>
    ensures { result ≡ find (λ k. is_written (kind_spelling k) text.now) kinds.now }
{
    for kind in kinds {
        if is_written(kind_spelling(*kind), text) {
            return Some(*kind);
        }
    }
    None
}

#[tactic(auto, unfolding(crate::specs::Forms::kind_of))]
fn kind_of(text: &[u8]) -> Option<StatementKind>
    ensures { result ≡ kind_of text.now }
{
    kind_among(&KINDS, text)
}

fn first_kind(tokens: &[Token]) -> Result<(StatementKind, &[Token]), Stop>
    ensures { Gives (λ x. (x.0, x.1.now)) result (one_at kind_in tokens.now) }
{
    let [first, rest @ ..] = tokens else {
        return Err(Stop::Syntax);
    };
    match &first.sign {
        Sign::Word(_, name) => match kind_of(name.bytes()) {
            Some(kind) => Ok((kind, rest)),
            None => Err(Stop::Syntax),
        },
        _ => Err(Stop::Syntax),
    }
}

// Kinds up to the closing parenthesis, of which there is at least one.
fn kinds_up_to_close(
    alloc: Global,
    tokens: &[Token],
) -> Result<(Vector<StatementKind>, &[Token]), Stop>
    ensures { Gives (λ x. (x.0, x.1.now)) result (kinds_at (length tokens.now) tokens.now) }
{
    let mut list = Vector::new(alloc);
    let mut rest = tokens;
    for _ in 0..tokens.len() {
        let (kind, after) = first_kind(rest)?;
        list.push(kind)?;
        if !starts_with(after, Mark::Comma) {
            let after = expect_mark(after, Mark::Close)?;
            return Ok((list, after));
        }
        rest = others(after);
    }
    Err(Stop::Syntax)
}

/// Kinds of statements in parentheses.
#[tactic(auto, unfolding(crate::specs::Reading::kinds_in))]
pub fn kinds(alloc: Global, tokens: &[Token]) -> Result<(Vector<StatementKind>, &[Token]), Stop>
    ensures { Gives (λ x. (x.0, x.1.now)) result (kinds_in tokens.now) }
{
    let rest = expect_mark(tokens, Mark::Open)?;
    kinds_up_to_close(alloc, rest)
}
