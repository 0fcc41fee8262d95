// What begins a text.
ghost use Rattle.std.specs.Prelude.{◌≡◌, ◌≤◌, ◌∷◌, IfOk, IsTrue, take, drop, length};
ghost use Rattle.std.specs.List.{prefix_len, list_all};
ghost use Rattle.std.specs.Str.Parse.{digits_value};
ghost use Rattle.fql_tokens.specs.Bytes.{is_digit, is_file_byte, continues_word, is_predicate_byte};
ghost use Rattle.fql_tokens.specs.First.{starts, word_at, number_at, filter_at, predicate_at, file_at, double_mark_at, or_double, names_file, beginning};

use crate::bytes::{
    continues_word, is_blank, is_digit, is_file_byte, is_letter, is_predicate_byte,
};
use crate::spelling::{double_mark, filter_of, keyword_of, single_mark};
use crate::token::{Mark, Sign};
use fq_core::{Memory, Name};
use std::alloc::Global;

/// What the tokens before a place say of it.
#[derive(Clone, Copy, Debug)]
pub enum Mode {
    Plain,
    /// The token before is `@FILE`.
    FileFilter,
    /// The tokens before are `@FILE` and `(`.
    FileName,
}

/// What begins a text, with its length in bytes.
#[derive(Drop)]
pub enum Beginning {
    /// The text has no more bytes.
    End,
    Blank,
    Token(Sign, usize),
    /// No token begins here.
    Unknown,
}

/// The bytes of a text from a place on.
pub fn rest_of(text: &[u8], at: usize) -> &[u8]
    ensures { result.now ≡ drop at text.now }
{
    if at < text.len() { &text[at..] } else { &[] }
}

// The first bytes of a text.
fn front_of(text: &[u8], length: usize) -> &[u8]
    ensures { result.now ≡ take length text.now }
{
    if length < text.len() {
        &text[..length]
    } else {
        text
    }
}

fn starts(byte: u8, text: &[u8]) -> bool
    ensures { result ≡ starts byte text.now }
{
    match text {
        [] => false,
        [first, ..] => *first == byte,
    }
}

fn word_length(text: &[u8]) -> usize
    ensures { result ≡ prefix_len continues_word text.now }
{
    text.iter()
        .take_while(|byte| continues_word(**byte))
        .count()
}

fn digits_length(text: &[u8]) -> usize
    ensures { result ≡ prefix_len is_digit text.now }
{
    text.iter().take_while(|byte| is_digit(**byte)).count()
}

fn predicate_length(text: &[u8]) -> usize
    ensures { result ≡ prefix_len is_predicate_byte text.now }
{
    text.iter()
        .take_while(|byte| is_predicate_byte(**byte))
        .count()
}

fn file_length(text: &[u8]) -> usize
    ensures { result ≡ prefix_len is_file_byte text.now }
{
    text.iter().take_while(|byte| is_file_byte(**byte)).count()
}

// The number that at most nine digits write.
fn value_of(digits: &[u8]) -> u32
    requires few { length digits.now ≤ 9 }
    requires digits { IsTrue (list_all is_digit digits.now) }
    ensures { result ≡ digits_value 10 digits.now }
{
    let mut value = 0;
    for digit in digits {
        value = value * 10 + (*digit - b'0') as u32;
    }
    value
}

#[tactic(auto, unfolding(crate::specs::First::word_at))]
fn word(alloc: Global, text: &[u8]) -> Result<Beginning, Memory>
    ensures { IfOk result (λ b. b ≡ word_at text.now) }
{
    let length = word_length(text);
    let word = Name::new(alloc, front_of(text, length))?;
    let keyword = keyword_of(word.bytes());
    Ok(Beginning::Token(Sign::Word(keyword, word), length))
}

#[tactic(auto, using(crate::proofs::Digits::all_digits, crate::proofs::Digits::few_digits), unfolding(crate::specs::First::number_at))]
fn number(text: &[u8]) -> Beginning
    ensures { result ≡ number_at text.now }
{
    let length = digits_length(text);
    if length <= 9 {
        Beginning::Token(Sign::Number(value_of(front_of(text, length))), length)
    } else {
        Beginning::Unknown
    }
}

#[tactic(auto, unfolding(crate::specs::First::filter_at))]
fn filter(text: &[u8]) -> Beginning
    requires { length text.now ≤ 5000 }
    ensures { result ≡ filter_at text.now }
{
    let length = word_length(text);
    match filter_of(front_of(text, length)) {
        Some(name) => Beginning::Token(Sign::Filter(name), length + 1),
        None => Beginning::Unknown,
    }
}

#[tactic(auto, unfolding(crate::specs::First::predicate_at))]
fn predicate(alloc: Global, text: &[u8]) -> Result<Beginning, Memory>
    requires { length text.now ≤ 5000 }
    ensures { IfOk result (λ b. b ≡ predicate_at text.now) }
{
    let length = predicate_length(text);
    if starts(b'}', rest_of(text, length)) {
        let written = Name::new(alloc, front_of(text, length))?;
        Ok(Beginning::Token(Sign::Predicate(written), length + 2))
    } else {
        Ok(Beginning::Unknown)
    }
}

#[tactic(auto, unfolding(crate::specs::First::file_at))]
fn file(alloc: Global, text: &[u8]) -> Result<Beginning, Memory>
    ensures { IfOk result (λ b. b ≡ file_at text.now) }
{
    let length = file_length(text);
    let name = Name::new(alloc, front_of(text, length))?;
    Ok(Beginning::Token(Sign::File(name), length))
}

fn double(text: &[u8]) -> Beginning
    ensures { result ≡ double_mark_at text.now }
{
    match text {
        [first, second, ..] => match double_mark(*first, *second) {
            Some(mark) => Beginning::Token(Sign::Mark(mark), 2),
            None => Beginning::Unknown,
        },
        _ => Beginning::Unknown,
    }
}

fn mark(single: Option<Mark>, text: &[u8]) -> Beginning
    ensures { result ≡ or_double single text.now }
{
    match single {
        Some(mark) => Beginning::Token(Sign::Mark(mark), 1),
        None => double(text),
    }
}

fn names_file(mode: Mode, is_byte: bool) -> bool
    ensures { result ≡ names_file mode is_byte }
{
    match mode {
        Mode::FileName => is_byte,
        _ => false,
    }
}

/// What begins a text.
#[tactic(auto, unfolding(crate::specs::First::beginning))]
pub fn what_begins(alloc: Global, mode: Mode, text: &[u8]) -> Result<Beginning, Memory>
    requires { length text.now ≤ 5000 }
    ensures { IfOk result (λ b. b ≡ beginning mode text.now) }
{
    let [first, rest @ ..] = text else {
        return Ok(Beginning::End);
    };
    if is_blank(*first) {
        Ok(Beginning::Blank)
    } else if names_file(mode, is_file_byte(*first)) {
        file(alloc, text)
    } else if is_letter(*first) {
        word(alloc, text)
    } else if is_digit(*first) {
        Ok(number(text))
    } else if *first == b'@' {
        Ok(filter(rest))
    } else if *first == b'{' {
        predicate(alloc, rest)
    } else {
        Ok(mark(single_mark(*first), text))
    }
}
