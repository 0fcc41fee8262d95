// Numbers, character constants, and the kinds of tokens.
ghost use Rattle.std.specs.Prelude.{◌≡◌, ◌∷◌, ◌<◌, ◌^◌, ◌+◌, ◌*◌, pos, Some, length};
ghost use Rattle.std.specs.List.{prefix_len};
ghost use Rattle.std.specs.Option.{SomeIff};
ghost use Rattle.std.specs.Char as char;
ghost use Rattle.std.specs.Str.Parse.{digits_value};
ghost use Rattle.c_values.specs.Kind.{is_in_range};
ghost use Rattle.c_lex.specs.Forms.{constant_value};
ghost use Rattle.c_lex.specs.Constants.{is_u, is_l, suffix_of, plain_kinds, long_kinds, kinds_of, kind_of_number, base_of, radix, number_in, number_of, with_suffix, after_prefix, of_kind, constant_kind, word_kind, mark_kind, token_kind};

use crate::bytes::{is_constant_byte, is_digit, is_letter};
use crate::foreign::{is_foreign_mark, is_foreign_word};
use crate::form::escape;
use crate::piece::rest_of;
use crate::token::TokenKind;
use c_values::Kind;

/// What the suffix of a number says.
#[derive(Clone, Copy, Debug)]
pub struct Suffix {
    pub unsigned: bool,
    pub long: bool,
}

/// How a number is written.
#[derive(Clone, Copy, Debug)]
pub enum Base {
    Decimal,
    Octal,
    Hexadecimal,
}

fn is_u(byte: u8) -> bool
    ensures { result ≡ is_u byte }
{
    byte == b'u' || byte == b'U'
}

fn is_l(byte: u8) -> bool
    ensures { result ≡ is_l byte }
{
    byte == b'l' || byte == b'L'
}

fn suffix_with(unsigned: bool, long: bool) -> Option<Suffix>
    ensures { result ≡ Some (record { unsigned = unsigned; long = long }) }
{
    Some(Suffix { unsigned, long })
}

#[tactic(auto, unfolding(crate::specs::Constants::suffix_of))]
fn suffix_of(text: &[u8]) -> Option<Suffix>
    ensures { result ≡ suffix_of text.now }
{
    match text {
        [] => suffix_with(false, false),
        [a] => {
            if is_u(*a) {
                suffix_with(true, false)
            } else if is_l(*a) {
                suffix_with(false, true)
            } else {
                None
            }
        }
        [a, b] => {
            if (is_u(*a) && is_l(*b)) || (is_l(*a) && is_u(*b)) {
                suffix_with(true, true)
            } else if is_l(*a) && is_l(*b) {
                suffix_with(false, true)
            } else {
                None
            }
        }
        [a, b, c] => {
            if (is_u(*a) && is_l(*b) && is_l(*c)) || (is_l(*a) && is_l(*b) && is_u(*c)) {
                suffix_with(true, true)
            } else {
                None
            }
        }
        _ => None,
    }
}

// Whether a number is in the range of a kind.
fn holds(kind: Kind, value: u64) -> bool
    ensures { result ≡ is_in_range kind (pos value) }
{
    let bits = if kind.signed {
        kind.width.saturating_sub(1)
    } else {
        kind.width
    };
    match 2u64.checked_pow(bits as u32) {
        Some(limit) => value < limit,
        None => true,
    }
}

fn plain_kinds(base: Base) -> &'static [Kind]
    ensures { result.now ≡ plain_kinds base }
{
    match base {
        Base::Decimal => &[Kind::INT, Kind::LONG],
        _ => &[
            Kind::INT,
            Kind::UNSIGNED_INT,
            Kind::LONG,
            Kind::UNSIGNED_LONG,
        ],
    }
}

fn long_kinds(base: Base) -> &'static [Kind]
    ensures { result.now ≡ long_kinds base }
{
    match base {
        Base::Decimal => &[Kind::LONG],
        _ => &[Kind::LONG, Kind::UNSIGNED_LONG],
    }
}

// The kinds that a number may have, in the order in which they are tried.
fn kinds_of(base: Base, suffix: Suffix) -> &'static [Kind]
    ensures { result.now ≡ kinds_of base suffix }
{
    match (suffix.unsigned, suffix.long) {
        (true, true) => &[Kind::UNSIGNED_LONG],
        (true, false) => &[Kind::UNSIGNED_INT, Kind::UNSIGNED_LONG],
        (false, true) => long_kinds(base),
        (false, false) => plain_kinds(base),
    }
}

// The first of the kinds that holds the number.
#[tactic(auto, unfolding(crate::specs::Constants::kind_of_number))]
fn kind_of_number(base: Base, suffix: Suffix, value: u64) -> Option<Kind>
    ensures { result ≡ kind_of_number base suffix value }
{
    kinds_of(base, suffix)
        .iter()
        .copied()
        .find(|kind| holds(*kind, value))
}

// The value of a digit below 36, or 36 where the byte is none.
fn digit_value(byte: u8) -> u8
    ensures { result ≡ char.digit_value byte }
{
    if byte < b'0' {
        36
    } else if byte <= b'9' {
        byte - b'0'
    } else if byte < b'A' {
        36
    } else if byte <= b'Z' {
        byte - b'A' + 10
    } else if byte < b'a' {
        36
    } else if byte <= b'z' {
        byte - b'a' + 10
    } else {
        36
    }
}

fn radix(base: Base) -> u8
    ensures { result ≡ radix base }
{
    match base {
        Base::Decimal => 10,
        Base::Octal => 8,
        Base::Hexadecimal => 16,
    }
}

fn is_digit_of(base: Base, byte: u8) -> bool
    ensures { result ≡ char.is_digit byte (radix base) }
{
    digit_value(byte) < radix(base)
}

fn digits_length(base: Base, text: &[u8]) -> usize
    ensures { result ≡ prefix_len (λ b. char.is_digit b (radix base)) text.now }
{
    text.iter()
        .take_while(|byte| is_digit_of(base, **byte))
        .count()
}

// The number with one more digit, where it is below 2^64.
fn with_digit(base: Base, value: u64, digit: u8) -> Option<u64>
    ensures { SomeIff result (value * radix base + char.digit_value digit < 2 ^ 64) (value * radix base + char.digit_value digit) }
{
    value
        .checked_mul(radix(base) as u64)?
        .checked_add(digit_value(digit) as u64)
}

// The number that the digits write, where it is below 2^64.
fn value_of(base: Base, digits: &[u8]) -> Option<u64>
    ensures { SomeIff result (digits_value (radix base) digits.now < 2 ^ 64) (digits_value (radix base) digits.now) }
{
    let mut value = 0;
    for digit in digits {
        match with_digit(base, value, *digit) {
            Some(next) => value = next,
            None => return None,
        }
    }
    Some(value)
}

#[tactic(auto, unfolding(crate::specs::Forms::constant_value))]
fn constant_value(text: &[u8]) -> Option<u8>
    ensures { result ≡ constant_value text.now }
{
    match text {
        [a, b] => {
            if is_constant_byte(*a) && *b == b'\'' {
                Some(*a)
            } else {
                None
            }
        }
        [a, b, c] => {
            if *a == b'\\' && *c == b'\'' {
                escape(*b)
            } else {
                None
            }
        }
        _ => None,
    }
}

fn constant_kind(value: Option<u8>) -> TokenKind
    ensures { result ≡ constant_kind value }
{
    match value {
        Some(value) => TokenKind::Number {
            value: value as u64,
            kind: Kind::INT,
        },
        None => TokenKind::Foreign,
    }
}

// What a number with these digits and this suffix is.
#[tactic(auto, using(crate::proofs::Numbers::no_kind))]
fn with_suffix(base: Base, digits: &[u8], suffix: Option<Suffix>) -> Option<TokenKind>
    ensures { result ≡ with_suffix base (digits_value (radix base) digits.now) suffix }
{
    match suffix {
        None => Some(TokenKind::Foreign),
        Some(suffix) => match value_of(base, digits) {
            None => None,
            Some(value) => match kind_of_number(base, suffix, value) {
                None => None,
                Some(kind) => Some(TokenKind::Number { value, kind }),
            },
        },
    }
}

// What a run of digits and further bytes is.
#[tactic(auto, using(crate::proofs::Numbers::prefix_within), unfolding(crate::specs::Constants::number_in))]
fn number_in(base: Base, text: &[u8]) -> Option<TokenKind>
    ensures { result ≡ number_in base text.now }
{
    let length = digits_length(base, text);
    if length == 0 {
        return Some(TokenKind::Foreign);
    }
    with_suffix(base, &text[..length], suffix_of(&text[length..]))
}

fn base_of(text: &[u8]) -> Base
    ensures { result ≡ base_of text.now }
{
    if text.starts_with(b"0x".as_slice()) {
        Base::Hexadecimal
    } else if text.starts_with(b"0".as_slice()) {
        Base::Octal
    } else {
        Base::Decimal
    }
}

// What a run that begins with a digit is: none where its kinds don't hold it.
#[tactic(auto, unfolding(crate::specs::Constants::number_of))]
fn number_of(text: &[u8]) -> Option<TokenKind>
    ensures { result ≡ number_of text.now }
{
    match base_of(text) {
        Base::Hexadecimal => number_in(Base::Hexadecimal, rest_of(text, 2)),
        base => number_in(base, text),
    }
}

/// What a token is: none where it is a number that is too wide for each of its kinds (ISO/IEC 9899:2011, 6.4.4.1p6).
#[tactic(auto, unfolding(crate::specs::Constants::token_kind))]
pub fn token_kind(text: &[u8]) -> Option<TokenKind>
    ensures { result ≡ token_kind text.now }
{
    match text {
        [] => Some(TokenKind::Foreign),
        [first, rest @ ..] => {
            if is_letter(*first) {
                Some(word_kind(text))
            } else if is_digit(*first) {
                number_of(text)
            } else if *first == b'\'' {
                Some(constant_kind(constant_value(rest)))
            } else if *first == b'"' {
                Some(TokenKind::Foreign)
            } else {
                Some(mark_kind(text))
            }
        }
    }
}

fn word_kind(text: &[u8]) -> TokenKind
    ensures { result ≡ word_kind text.now }
{
    if is_foreign_word(text) {
        TokenKind::Foreign
    } else {
        TokenKind::Word
    }
}

fn mark_kind(text: &[u8]) -> TokenKind
    ensures { result ≡ mark_kind text.now }
{
    if is_foreign_mark(text) {
        TokenKind::Foreign
    } else {
        TokenKind::Mark
    }
}
