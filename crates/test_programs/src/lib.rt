//! Source texts and their automata, for the tests of the crates that stand on `c_front`.
#![tactic(auto)]

use c_front::automaton_of_texts;
use c_lex::{SourceText, are_small};
use cfa::Graph;
use containers::Vector;
use fq_core::{Fault, Memory, Name};
use std::alloc::Global;

/// A source text of this file.
pub fn text_of(alloc: Global, file: &[u8], source: &str) -> Result<SourceText, Memory> {
    let name = Name::new(alloc, file)?;
    let bytes = Vector::from_vec(Vec::from_slice(alloc, source.as_bytes())?);
    Ok(SourceText { name, bytes })
}

/// The texts of these files, each with its name.
pub fn texts_of(alloc: Global, files: &[(&str, &str)]) -> Result<Vec<SourceText>, Memory> {
    let mut texts = Vec::new(alloc);
    for (file, source) in files {
        texts.push(text_of(alloc, file.as_bytes(), source)?)?;
    }
    Ok(texts)
}

/// The automaton of texts, or why they have none. Texts that are too many or too long for one are refused as if memory were
/// short.
pub fn graph_of_texts(alloc: Global, texts: &[SourceText]) -> Result<Graph, Fault> {
    if texts.len() > 1000 || !are_small(texts) {
        return Err(Fault::Memory);
    }
    automaton_of_texts(alloc, texts)
}

/// The automaton of one text.
pub fn graph_of(alloc: Global, file: &[u8], source: &str) -> Result<Graph, Fault> {
    let texts = [text_of(alloc, file, source)?];
    graph_of_texts(alloc, &texts)
}
