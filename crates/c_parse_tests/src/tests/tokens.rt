// Tokens of texts with a blank between each two tokens.
use c_lex::{Token, TokenKind};
use c_values::Kind;
use fq_core::{Name, Span};
use std::alloc::{AllocError, Global};

fn is_foreign(text: &[u8]) -> bool {
    text == b"struct".as_slice()
        || text == b"goto".as_slice()
        || text == b".".as_slice()
        || text == b"->".as_slice()
}

// Numbers have one digit here.
fn kind_of(text: &[u8]) -> TokenKind {
    if is_foreign(text) {
        return TokenKind::Foreign;
    }
    match text {
        [b'0'..=b'9'] => TokenKind::Number {
            value: text[0].saturating_sub(b'0') as u64,
            kind: Kind::INT,
        },
        [b'a'..=b'z', ..] => TokenKind::Word,
        _ => TokenKind::Mark,
    }
}

/// The tokens, each with its number in the text as its column.
pub fn tokens_of(alloc: Global, text: &str) -> Result<Vec<Token>, AllocError> {
    let mut tokens = Vec::new(alloc);
    let mut column = 0u32;
    let mut line = 1u32;
    for part in text.split(' ') {
        let bytes = part.as_bytes();
        if bytes == b"\n".as_slice() {
            line = line.saturating_add(1);
        } else if !bytes.is_empty() {
            column = column.saturating_add(1);
            let span = Span {
                file: 0,
                line,
                column,
                start: column,
                end: column,
            };
            tokens.push(Token {
                kind: kind_of(bytes),
                span,
                text: Name::new(alloc, bytes).map_err(|_| AllocError)?,
            })?;
        }
    }
    Ok(tokens)
}

/// Appends a text so many times.
pub fn repeated(text: &mut String, part: &str, times: u32) -> Result<(), AllocError> {
    for _ in 0..times {
        text.push_str(part)?;
    }
    Ok(())
}
