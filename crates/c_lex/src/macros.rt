// Macros.
use crate::token::TokenKind;
use containers::Vector;
use fq_core::Name;

/// A token that a macro gives.
#[derive(Debug, Drop)]
pub struct Replacement {
    pub kind: TokenKind,
    pub text: Name,
}

/// A macro without parameters.
#[derive(Debug, Drop)]
pub struct Macro {
    pub name: Name,
    pub list: Vector<Replacement>,
}
