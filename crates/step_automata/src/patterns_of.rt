// The patterns whose automata are stepped.
ghost use Rattle.std.specs.Prelude.{IfOk};

use circuit::Memory;
use containers::{Boxed, TryClone};
use patterns::{Letter, NumberSet, Pattern};
use std::alloc::Global;

// The edge on which a row's match waits before the row's last letter.
pub const TAIL: u32 = 1_000_000;

// An edge that no path has.
const NEVER: u32 = 2_000_000;

// Edges in the letter that stands for any edge.
const ANY: u32 = 1_000;

#[derive(Clone, Copy, Debug, Drop)]
pub enum Shape {
    // `a.b.c. ..`, nested to the left.
    Left,
    // The same, nested to the right.
    Right,
    // `((a*) + (b*) + ..).z`
    Choice,
    // `(ID*).a.(ID*).b. ..`
    Arrows,
}

#[derive(Clone, Copy, Debug, Drop)]
pub enum Alive {
    // No match is alive, and none may begin.
    None,
    // None is alive, and one may begin at each state.
    Beginning,
    // One is alive, and none may begin.
    One,
    // One is alive before each letter.
    All,
}

type Made = Result<Pattern<Letter>, Memory>;

fn letter(alloc: Global, number: u32) -> Made {
    let mut numbers = Vec::new(alloc);
    numbers.push(number)?;
    Ok(Pattern::Letter(Letter::Edges(NumberSet::new(alloc, numbers)?)))
}

// The edges below `ANY`.
fn any(alloc: Global) -> Result<NumberSet, Memory> {
    let mut numbers = Vec::new(alloc);
    for number in 0..ANY {
        numbers.push(number)?;
    }
    Ok(NumberSet::new(alloc, numbers)?)
}

fn dot(alloc: Global, a: Pattern<Letter>, b: Pattern<Letter>) -> Made {
    Ok(Pattern::Dot(Boxed::new(alloc, a)?, Boxed::new(alloc, b)?))
}

fn either(alloc: Global, a: Pattern<Letter>, b: Pattern<Letter>) -> Made {
    Ok(Pattern::Either(Boxed::new(alloc, a)?, Boxed::new(alloc, b)?))
}

fn star(alloc: Global, body: Pattern<Letter>) -> Made {
    Ok(Pattern::Repeat {
        body: Boxed::new(alloc, body)?,
        least: 0,
        most: None,
    })
}

// `ID*`
fn any_row(alloc: Global, any: &NumberSet) -> Made {
    let any = any.try_clone(alloc)?;
    star(alloc, Pattern::Letter(Letter::Edges(any)))
}

// The letter at a place: all are one where a match is to be alive in each.
fn letter_at(alloc: Global, alive: Alive, place: u32) -> Made {
    match alive {
        Alive::All => letter(alloc, 0),
        _ => letter(alloc, place),
    }
}

// `(z*).y`, in which a match waits.
fn tail(alloc: Global, alive: Alive) -> Made {
    let waiting = star(alloc, letter_at(alloc, alive, TAIL)?)?;
    dot(alloc, waiting, letter(alloc, NEVER)?)
}

fn left_row(alloc: Global, alive: Alive, letters: u32) -> Made {
    let mut row = letter_at(alloc, alive, 0)?;
    for place in 1..letters {
        row = dot(alloc, row, letter_at(alloc, alive, place)?)?;
    }
    dot(alloc, row, tail(alloc, alive)?)
}

fn right_row(alloc: Global, alive: Alive, letters: u32) -> Made {
    let mut row = tail(alloc, alive)?;
    for behind in 0..letters {
        row = dot(alloc, letter_at(alloc, alive, letters - 1 - behind)?, row)?;
    }
    Ok(row)
}

fn choice(alloc: Global, alive: Alive, letters: u32) -> Made {
    let mut all = star(alloc, letter_at(alloc, alive, 0)?)?;
    for place in 1..letters {
        all = either(alloc, all, star(alloc, letter_at(alloc, alive, place)?)?)?;
    }
    dot(alloc, all, letter(alloc, NEVER)?)
}

fn arrows(alloc: Global, alive: Alive, letters: u32) -> Made {
    let any = any(alloc)?;
    let mut row = any_row(alloc, &any)?;
    for place in 0..letters {
        row = dot(
            alloc,
            row,
            letter_at(alloc, alive, ANY.saturating_add(place))?,
        )?;
        row = dot(alloc, row, any_row(alloc, &any)?)?;
    }
    dot(alloc, row, letter(alloc, NEVER)?)
}

// The pattern of a shape, with about so many leaves.
pub fn pattern(alloc: Global, shape: Shape, alive: Alive, leaves: u32) -> Made {
    match shape {
        Shape::Left => left_row(alloc, alive, leaves.saturating_sub(2)),
        Shape::Right => right_row(alloc, alive, leaves.saturating_sub(2)),
        Shape::Choice => choice(alloc, alive, leaves.saturating_sub(1)),
        Shape::Arrows => arrows(alloc, alive, leaves / 2),
    }
}
