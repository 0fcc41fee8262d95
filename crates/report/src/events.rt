// The lines of events.
ghost use Rattle.std.specs.Prelude.{◌≡◌, ◌+◌, ◌++◌, [], IfOk, OnOk, map, slice_get};
ghost use Rattle.report.specs.EventsText.{
  all_after,
  done_name,
  entered_after,
  event_line,
  event_lines,
  event_place,
  events_text,
  last_entered,
  name_of,
  told_along,
  told_at,
  told_line,
  told_lines,
  told_run,
  truth_text,
  what_text,
};

use crate::edges::{function_name, input_name, kind_text, push_mark, push_two};
use crate::ends::result_kind;
use crate::letters::push_place;
use crate::lines::push_input;
use crate::numbers::push_number;
use c_values::Kind;
use cfa::Graph;
use containers::Vector;
use fq_core::{Memory, Name};
use path_runner::RunEnd;
use std::alloc::{AllocError, Global};
use tree_events::edge_events::{Event, What, told};

fn truth_text(truth: bool) -> &'static [u8]
    ensures { result.now ≡ truth_text truth }
{
    if truth { b" true" } else { b" false" }
}

// The name of the function that was entered last.
fn last_name<'a>(graph: &'a Graph, entered: &[u32]) -> &'a [u8]
    ensures { result.now ≡ name_of graph.now (last_entered entered.now) }
{
    match entered.last() {
        Some(function) => function_name(graph.functions(), *function),
        None => &[],
    }
}

// Appends a word, the kind of the statement and the place.
fn push_placed(
    text: &mut Vec<u8>,
    files: &[Name],
    word: &[u8],
    event: &Event,
) -> Result<(), AllocError>
    ensures { OnOk result (text.new.items ≡ text.old.items ++ (word.now ++ event_place files.now event.now)) }
{
    text.extend_from_slice(word)?;
    text.extend_from_slice(kind_text(event.statement))?;
    text.extend_from_slice(b" ")?;
    push_place(text, files, event.place.file, event.place.line)?;
    text.extend_from_slice(b":")?;
    push_number(text, event.place.column)?;
    Ok(())
}

fn push_name(text: &mut Vec<u8>, name: &Option<Name>) -> Result<(), AllocError>
    ensures { OnOk result (text.new.items ≡ text.old.items ++ done_name name.now) }
{
    match name {
        Some(name) => push_two(text, b" ", name.bytes()),
        None => Ok(()),
    }
}

// Appends what happens, where these functions are entered.
fn push_what(
    text: &mut Vec<u8>,
    graph: &Graph,
    entered: &[u32],
    event: &Event,
) -> Result<(), AllocError>
    ensures { OnOk result (text.new.items ≡ text.old.items ++ what_text graph.now entered.now event.now event.now.what) }
{
    let files = graph.files();
    match &event.what {
        What::Outcome { truth, settles } => {
            push_placed(text, files, b"outcome ", event)?;
            text.extend_from_slice(truth_text(*truth))?;
            push_mark(text, *settles, b" settles")
        }
        What::Did { name } => {
            push_placed(text, files, b"did ", event)?;
            push_name(text, name)
        }
        What::Entered { function } => {
            push_two(
                text,
                b"entered ",
                function_name(graph.functions(), *function),
            )
        }
        What::Left => push_two(text, b"left ", last_name(graph, entered)),
        What::Answered { input } => {
            push_two(text, b"answered ", input_name(graph.inputs(), *input))
        }
        What::Valued => push_placed(text, files, b"valued ", event),
        What::Enters => push_placed(text, files, b"enters ", event),
        What::Again => push_placed(text, files, b"again ", event),
        What::Always => push_placed(text, files, b"always ", event),
        What::Straight => push_placed(text, files, b"straight ", event),
    }
}

fn push_event(
    text: &mut Vec<u8>,
    graph: &Graph,
    entered: &[u32],
    event: &Event,
) -> Result<(), AllocError>
    ensures { OnOk result (text.new.items ≡ text.old.items ++ event_line graph.now entered.now event.now) }
{
    push_what(text, graph, entered, event)?;
    text.extend_from_slice(b"\n")?;
    Ok(())
}

// The functions that are entered, after what happens.
fn go_on(entered: &mut Vec<u32>, what: &What) -> Result<(), AllocError>
    ensures { OnOk result (entered.new.items ≡ entered_after entered.old.items what.now) }
{
    match what {
        What::Entered { function } => {
            entered.push(*function)?;
            Ok(())
        }
        What::Left => {
            let _left = entered.pop();
            Ok(())
        }
        _ => Ok(()),
    }
}

// Appends a line for each event.
fn push_events(
    text: &mut Vec<u8>,
    graph: &Graph,
    entered: &mut Vec<u32>,
    events: &[Event],
) -> Result<(), AllocError>
    ensures text { OnOk result (text.new.items ≡ text.old.items ++ event_lines graph.now entered.old.items events.now) }
    ensures entered { OnOk result (entered.new.items ≡ all_after entered.old.items events.now) }
{
    for event in events {
        push_event(text, graph, entered, event)?;
        go_on(entered, &event.what)?;
    }
    Ok(())
}

// Appends what the edge of a number tells.
fn push_told(
    alloc: Global,
    text: &mut Vec<u8>,
    graph: &Graph,
    entered: &mut Vec<u32>,
    edge: u32,
) -> Result<(), Memory>
    ensures text { OnOk result (text.new.items ≡ text.old.items ++ event_lines graph.now entered.old.items (told_at (slice_get graph.now.edges edge))) }
    ensures entered { OnOk result (entered.new.items ≡ all_after entered.old.items (told_at (slice_get graph.now.edges edge))) }
{
    match graph.edges().get(edge as usize) {
        Some(edge) => {
            let events = told(alloc, edge)?;
            push_events(text, graph, entered, events.as_slice())?;
            Ok(())
        }
        None => Ok(()),
    }
}

// Appends what the edges of a run tell.
fn push_along(alloc: Global, text: &mut Vec<u8>, graph: &Graph, edges: &[u32]) -> Result<(), Memory>
    ensures { OnOk result (text.new.items ≡ text.old.items ++ event_lines graph.now [] (told_along graph.now edges.now)) }
{
    let mut entered = Vec::new(alloc);
    for edge in edges {
        push_told(alloc, text, graph, &mut entered, *edge)?;
    }
    Ok(())
}

// Appends how a run ended, and what its edges tell.
fn push_run(
    alloc: Global,
    text: &mut Vec<u8>,
    graph: &Graph,
    kind: Option<Kind>,
    number: usize,
    run: &(RunEnd, Vector<u32>),
) -> Result<(), Memory>
    ensures { OnOk result (text.new.items ≡ text.old.items ++ told_line graph.now kind number (told_run graph.now run.now)) }
{
    push_input(text, kind, number, &run.0)?;
    push_along(alloc, text, graph, run.1.as_slice())
}

fn push_runs(
    alloc: Global,
    text: &mut Vec<u8>,
    graph: &Graph,
    kind: Option<Kind>,
    runs: &[(RunEnd, Vector<u32>)],
) -> Result<(), Memory>
    ensures { OnOk result (text.new.items ≡ text.old.items ++ told_lines graph.now kind 1 (map (told_run graph.now) runs.now)) }
{
    for place in 0..runs.len() {
        push_run(alloc, text, graph, kind, place + 1, &runs[place])?;
    }
    Ok(())
}

/// The events of the runs of inputs to the function of this number: for each how it ended, as in a line of [`inputs_text`], and
/// then a line for each event that its edges tell, in order. What an edge tells is printed, and not kept.
///
/// [`inputs_text`]: crate::inputs_text
pub fn events_text(
    alloc: Global,
    graph: &Graph,
    entry: u32,
    runs: &[(RunEnd, Vector<u32>)],
) -> Result<Vec<u8>, Memory>
    ensures { IfOk result (λ text. text.items ≡ events_text graph.now entry (map (told_run graph.now) runs.now)) }
{
    let mut text = Vec::new(alloc);
    push_runs(alloc, &mut text, graph, result_kind(graph, entry), runs)?;
    Ok(text)
}
