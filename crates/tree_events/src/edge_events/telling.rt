// The events that an edge tells.
ghost use Rattle.std.specs.Prelude.{◌≡◌, IfOk};
ghost use Rattle.tree_events.specs.edge_events.Told.{
  ends_call,
  event_of,
  first_name,
  is_result,
  kind_tells,
  label_tells,
  operation_tells,
  put_tells,
  skip_tells,
  told,
};

use crate::edge_events::event::{Event, What};
use cfa::{CellPlace, Edge, Operation, StatementKind};
use containers::Vector;
use fq_core::{Memory, Name};
use std::alloc::Global;

fn first_name(names: &[Name]) -> Result<Option<Name>, Memory>
    ensures { IfOk result (λ name. name ≡ first_name names.now) }
{
    match names.first() {
        None => Ok(None),
        Some(name) => Ok(Some(name.clone()?)),
    }
}

fn is_result(place: &CellPlace) -> bool
    ensures { result ≡ is_result place.now }
{
    match place {
        CellPlace::Global(_) => false,
        CellPlace::Local(cell) => *cell == 0,
        CellPlace::Element { .. } => false,
    }
}

fn put_tells(names: &[Name], place: &CellPlace) -> Result<What, Memory>
    ensures { IfOk result (λ what. what ≡ put_tells names.now place.now) }
{
    match names.first() {
        Some(name) => {
            let name = name.clone()?;
            Ok(What::Did { name: Some(name) })
        }
        None if is_result(place) => Ok(What::Did { name: None }),
        None => Ok(What::Valued),
    }
}

fn kind_tells(kind: StatementKind) -> What
    ensures { result ≡ kind_tells kind }
{
    match kind {
        StatementKind::For => What::Always,
        StatementKind::Switch => What::Straight,
        _ => What::Did { name: None },
    }
}

fn label_tells(label: &Option<Name>, kind: StatementKind) -> Result<What, Memory>
    ensures { IfOk result (λ what. what ≡ label_tells label.now kind) }
{
    match label {
        None => Ok(kind_tells(kind)),
        Some(name) => {
            let name = name.clone()?;
            Ok(What::Did { name: Some(name) })
        }
    }
}

fn skip_tells(edge: &Edge) -> Result<What, Memory>
    ensures { IfOk result (λ what. what ≡ skip_tells edge.now) }
{
    if edge.enter {
        Ok(What::Enters)
    } else if edge.back {
        Ok(What::Again)
    } else {
        label_tells(&edge.label, edge.statement)
    }
}

fn operation_tells(edge: &Edge) -> Result<What, Memory>
    ensures { IfOk result (λ what. what ≡ operation_tells edge.now edge.now.operation) }
{
    match &edge.operation {
        Operation::Skip => skip_tells(edge),
        Operation::Assign { place, value: _ } => put_tells(edge.writes.as_slice(), place),
        Operation::Clear { .. } => {
            let name = first_name(edge.writes.as_slice())?;
            Ok(What::Did { name })
        }
        Operation::Guard { test: _, truth } => Ok(What::Outcome {
            truth: *truth,
            settles: edge.outcome,
        }),
        Operation::Call { callee, .. } => Ok(What::Entered { function: *callee }),
        Operation::Return { .. } => Ok(What::Left),
        Operation::Answer { input, .. } => Ok(What::Answered { input: *input }),
        Operation::Assert(_) => Ok(What::Did { name: None }),
        Operation::Assume(_) => Ok(What::Did { name: None }),
    }
}

fn ends_call(operation: &Operation) -> bool
    ensures { result ≡ ends_call operation.now }
{
    match operation {
        Operation::Return { call: _, dest } => dest.is_none(),
        Operation::Answer { input: _, dest } => dest.is_none(),
        _ => false,
    }
}

fn event_of(edge: &Edge, what: What) -> Event
    ensures { result ≡ event_of edge.now what }
{
    Event {
        place: edge.span,
        statement: edge.statement,
        what,
    }
}

#[tactic(auto, unfolding(crate::specs::edge_events::Told::told))]
/// The events that an edge tells, in order: one, and two where it is the last edge of a call that is a statement.
pub fn told(alloc: Global, edge: &Edge) -> Result<Vector<Event>, Memory>
    ensures { IfOk result (λ events. events ≡ told edge.now) }
{
    let what = operation_tells(edge)?;
    let mut events = Vector::new(alloc);
    events.push(event_of(edge, what))?;
    if ends_call(&edge.operation) {
        events.push(event_of(edge, What::Did { name: None }))?;
        Ok(events)
    } else {
        Ok(events)
    }
}
