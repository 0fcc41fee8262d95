// Where literals have their marks.
ghost use Rattle.std.specs.Prelude.{◌≡◌};
ghost use Rattle.cnf.specs.literal_marks.Places.{place_in, place_of};

use crate::{Clause, literal_key};

/// Where literals have their places in a table.
#[derive(Drop)]
pub enum Places {
    /// Each at its key.
    ByKey,
    /// Each where it stands among these, which are all that occur.
    Listed(Clause),
}

/// The place of a literal, if it has one.
pub(crate) fn place(places: &Places, literal: i32) -> Option<usize>
    ensures { result ≡ place_of places.now literal }
{
    match places {
        Places::ByKey => Some(literal_key(literal)),
        Places::Listed(all) => place_among(all, literal),
    }
}

// Where a literal stands in a clause.
fn place_among(all: &Clause, literal: i32) -> Option<usize>
    ensures { result ≡ place_in all.now literal }
{
    let key = literal_key(literal);
    all.literals()
        .binary_search_by_key(&key, |other| literal_key(*other))
        .ok()
}
