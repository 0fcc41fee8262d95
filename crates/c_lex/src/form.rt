// The forms of tokens.
ghost use Rattle.std.specs.Prelude.{◌≡◌, false, length, take};
ghost use Rattle.std.specs.List.{prefix_len};
ghost use Rattle.c_lex.specs.Bytes.{is_one_of, continues_word, continues_number};
ghost use Rattle.c_lex.specs.Forms.{single_marks, is_double_mark, is_triple_mark, is_token, is_header, ends_header, ends_token, greatest, longest, escapes, value_at};
ghost use Rattle.c_lex.specs.Scans.{PicksLongest, constant_length, escape_length, string_length, header_length, mark_length};

use crate::bytes::{
    continues_number, continues_word, is_constant_byte, is_digit, is_escaped_byte, is_letter,
    is_string_byte,
};

fn is_single_mark(a: u8) -> bool
    ensures { result ≡ is_one_of single_marks a }
{
    b"()[]{}?:;,=+-*/%&|^~!<>.".iter().any(|mark| *mark == a)
}

const DOUBLE_MARKS: [(u8, u8); 19] = [
    (b'+', b'+'),
    (b'-', b'-'),
    (b'<', b'<'),
    (b'>', b'>'),
    (b'<', b'='),
    (b'>', b'='),
    (b'=', b'='),
    (b'!', b'='),
    (b'&', b'&'),
    (b'|', b'|'),
    (b'*', b'='),
    (b'/', b'='),
    (b'%', b'='),
    (b'+', b'='),
    (b'-', b'='),
    (b'&', b'='),
    (b'^', b'='),
    (b'|', b'='),
    (b'-', b'>'),
];

fn is_double_mark(a: u8, b: u8) -> bool
    ensures { result ≡ is_double_mark a b }
{
    DOUBLE_MARKS.iter().any(|mark| mark.0 == a && mark.1 == b)
}

fn is_triple_mark(a: u8, b: u8, c: u8) -> bool
    ensures { result ≡ is_triple_mark a b c }
{
    [(b'<', b'<', b'='), (b'>', b'>', b'='), (b'.', b'.', b'.')]
        .iter()
        .any(|mark| mark.0 == a && mark.1 == b && mark.2 == c)
}

// What a backslash and this byte stand for in a character constant.
pub fn escape(byte: u8) -> Option<u8>
    ensures { result ≡ value_at escapes byte }
{
    match byte {
        b'n' => Some(b'\n'),
        b't' => Some(b'\t'),
        b'r' => Some(b'\r'),
        b'0' => Some(0),
        b'\\' => Some(b'\\'),
        b'\'' => Some(b'\''),
        b'"' => Some(b'"'),
        _ => None,
    }
}

// How many bytes from the front on go on in a word.
fn word_length(text: &[u8]) -> usize
    ensures { result ≡ prefix_len continues_word text.now }
{
    text.iter()
        .take_while(|byte| continues_word(**byte))
        .count()
}

fn number_length(text: &[u8]) -> usize
    ensures { result ≡ prefix_len continues_number text.now }
{
    text.iter()
        .take_while(|byte| continues_number(**byte))
        .count()
}

fn escape_length(a: u8, b: u8, text: &[u8]) -> Option<usize>
    ensures { result ≡ escape_length a b text.now }
{
    match text {
        [c, ..] => {
            if a == b'\\' && *c == b'\'' && escape(b).is_some() {
                Some(3)
            } else {
                None
            }
        }
        [] => None,
    }
}

#[tactic(auto, unfolding(crate::specs::Scans::constant_length))]
fn constant_length(text: &[u8]) -> Option<usize>
    ensures { result ≡ constant_length text.now }
{
    match text {
        [a, b, after @ ..] => {
            if is_constant_byte(*a) && *b == b'\'' {
                Some(2)
            } else {
                escape_length(*a, *b, after)
            }
        }
        _ => None,
    }
}

fn string_length(text: &[u8]) -> Option<usize>
    ensures { result ≡ string_length false text.now }
{
    let mut escaped = false;
    for (i, byte) in text.iter().enumerate() {
        if escaped {
            if !is_escaped_byte(*byte) {
                return None;
            }
            escaped = false;
        } else if *byte == b'"' {
            return Some(i + 1);
        } else if *byte == b'\\' {
            escaped = true;
        } else if !is_string_byte(*byte) {
            return None;
        }
    }
    None
}

fn header_length(text: &[u8]) -> Option<usize>
    ensures { result ≡ header_length text.now }
{
    for (i, byte) in text.iter().enumerate() {
        if *byte == b'>' {
            return Some(i + 1);
        }
        if *byte == b'\n' {
            return None;
        }
    }
    None
}

// How many bytes of the longest mark that begins with `a` follow it.
#[tactic(auto, unfolding(crate::specs::Scans::mark_length))]
fn mark_length(a: u8, text: &[u8]) -> Option<usize>
    ensures { result ≡ mark_length a text.now }
{
    match text {
        [b, c, ..] if is_triple_mark(a, *b, *c) => Some(2),
        [b, ..] if is_double_mark(a, *b) => Some(1),
        _ => { if is_single_mark(a) { Some(0) } else { None } }
    }
}

// How many bytes of the longest token that begins with `first` follow it.
fn rest_length(first: u8, text: &[u8]) -> Option<usize>
    ensures { PicksLongest (ends_token first) text.now result }
{
    if is_letter(first) {
        Some(word_length(text))
    } else if is_digit(first) {
        Some(number_length(text))
    } else if first == b'\'' {
        constant_length(text)
    } else if first == b'"' {
        string_length(text)
    } else {
        mark_length(first, text)
    }
}

fn token_length(text: &[u8]) -> Option<usize>
    ensures { result ≡ greatest (λ n. is_token (take n text.now)) (length text.now) }
{
    match text {
        [] => None,
        [first, rest @ ..] => match rest_length(*first, rest) {
            Some(length) => Some(1 + length),
            None => None,
        },
    }
}

#[tactic(auto, using(crate::proofs::Scans::header_longest))]
fn header_rest_length(text: &[u8]) -> Option<usize>
    ensures { PicksLongest ends_header text.now result }
{
    header_length(text)
}

fn header_name_length(text: &[u8]) -> Option<usize>
    ensures { result ≡ greatest (λ n. is_header (take n text.now)) (length text.now) }
{
    match text {
        [] => None,
        [first, rest @ ..] => {
            if *first == b'<' {
                match header_rest_length(rest) {
                    Some(length) => Some(1 + length),
                    None => None,
                }
            } else {
                None
            }
        }
    }
}

/// The length in bytes of the longest token that begins a text, or of the longest name of a header.
#[tactic(auto, unfolding(crate::specs::Forms::longest))]
pub fn longest(header: bool, text: &[u8]) -> Option<usize>
    ensures { result ≡ longest header text.now }
{
    if header {
        header_name_length(text)
    } else {
        token_length(text)
    }
}
