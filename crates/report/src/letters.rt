// The texts of goals.
ghost use Rattle.std.specs.Prelude.{◌≡◌, ◌++◌, OnOk, codes, slice_get};
ghost use Rattle.std.specs.Fmt.{decimal};
ghost use Rattle.report.specs.Letters.{dotted, edge_place, letter_text, node_place, place_text, text_at, word_text};

use crate::numbers::push_number;
use cfa::Graph;
use fq_core::Name;
use goals::{GoalLetter, Plan};
use std::alloc::AllocError;

// The text of a number in a list, or nothing past its end.
fn text_at(texts: &[Name], number: u32) -> &[u8]
    ensures { result.now ≡ text_at texts.now number }
{
    match texts.get(number as usize) {
        Some(text) => text.bytes(),
        None => &[],
    }
}

/// Appends a line of a file.
pub fn push_place(
    text: &mut Vec<u8>,
    files: &[Name],
    file: u32,
    line: u32,
) -> Result<(), AllocError>
    ensures { OnOk result (text.new.items ≡ text.old.items ++ place_text files.now file line) }
{
    text.extend_from_slice(text_at(files, file))?;
    text.extend_from_slice(b":")?;
    push_number(text, line)?;
    Ok(())
}

fn push_node_place(text: &mut Vec<u8>, graph: &Graph, number: u32) -> Result<(), AllocError>
    ensures { OnOk result (text.new.items ≡ text.old.items ++ node_place graph.now.files (slice_get graph.now.nodes number)) }
{
    match graph.nodes().get(number as usize) {
        Some(node) => push_place(text, graph.files(), node.file, node.line),
        None => Ok(()),
    }
}

fn push_edge_place(text: &mut Vec<u8>, graph: &Graph, number: u32) -> Result<(), AllocError>
    ensures { OnOk result (text.new.items ≡ text.old.items ++ edge_place graph.now.files (slice_get graph.now.edges number)) }
{
    match graph.edges().get(number as usize) {
        Some(edge) => push_place(text, graph.files(), edge.span.file, edge.span.line),
        None => Ok(()),
    }
}

// A mark, and a number and `@`.
fn push_numbered(text: &mut Vec<u8>, mark: &[u8], number: u32) -> Result<(), AllocError>
    ensures { OnOk result (text.new.items ≡ text.old.items ++ (mark.now ++ decimal number ++ codes "@")) }
{
    text.extend_from_slice(mark)?;
    push_number(text, number)?;
    text.extend_from_slice(b"@")?;
    Ok(())
}

// A text between two marks.
fn push_between(
    text: &mut Vec<u8>,
    before: &[u8],
    inner: &[u8],
    behind: &[u8],
) -> Result<(), AllocError>
    ensures { OnOk result (text.new.items ≡ text.old.items ++ (before.now ++ inner.now ++ behind.now)) }
{
    text.extend_from_slice(before)?;
    text.extend_from_slice(inner)?;
    text.extend_from_slice(behind)?;
    Ok(())
}

fn push_letter(
    text: &mut Vec<u8>,
    graph: &Graph,
    plan: &Plan,
    letter: GoalLetter,
) -> Result<(), AllocError>
    ensures { OnOk result (text.new.items ≡ text.old.items ++ letter_text graph.now plan.now letter) }
{
    match letter {
        GoalLetter::Node(number) => {
            push_numbered(text, b"n", number)?;
            push_node_place(text, graph, number)?;
            Ok(())
        }
        GoalLetter::Edge(number) => {
            push_numbered(text, b"e", number)?;
            push_edge_place(text, graph, number)?;
            Ok(())
        }
        GoalLetter::Predicate(number) => {
            push_between(text, b"{", text_at(&plan.predicates, number), b"}")
        }
        GoalLetter::Absent(number) => {
            push_between(text, b"!{", text_at(&plan.predicates, number), b"}")
        }
        GoalLetter::Quoted(number) => {
            push_between(text, b"\"", text_at(&plan.quotes, number), b"\"")
        }
    }
}

// Letters, each after a dot.
fn push_dotted(
    text: &mut Vec<u8>,
    graph: &Graph,
    plan: &Plan,
    letters: &[GoalLetter],
) -> Result<(), AllocError>
    ensures { OnOk result (text.new.items ≡ text.old.items ++ dotted graph.now plan.now letters.now) }
{
    for letter in letters {
        text.extend_from_slice(b" . ")?;
        push_letter(text, graph, plan, *letter)?;
    }
    Ok(())
}

/// Appends the text of a goal that has these letters.
pub fn push_word(
    text: &mut Vec<u8>,
    graph: &Graph,
    plan: &Plan,
    letters: &[GoalLetter],
) -> Result<(), AllocError>
    ensures { OnOk result (text.new.items ≡ text.old.items ++ word_text graph.now plan.now letters.now) }
{
    match letters {
        [] => Ok(()),
        [first, rest @ ..] => {
            push_letter(text, graph, plan, *first)?;
            push_dotted(text, graph, plan, rest)?;
            Ok(())
        }
    }
}
