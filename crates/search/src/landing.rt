// Where a jump lands.
ghost use Rattle.std.specs.Prelude.{◌≡◌, ◌≤◌, ◌^◌, false, neg_ℤ, take};
ghost use Rattle.cnf.specs.literal_marks.Marks.{marked};
ghost use Rattle.cnf.specs.declared.literal_marks.places.Places.TheVariants.{ByKey};
ghost use Rattle.search.specs.Lessons.{AreFalseBut, IsLanding};
ghost use Rattle.search.specs.Machine.{is_true};
ghost use Rattle.search.specs.Trails.{IsTrail};
ghost use Rattle.search.specs.Watching.{IsDecidedAt};

use crate::trail::Entry;
use cnf::literal_marks::{Places, is_marked};
use cnf::negation;

/// The one literal of a learned clause that is open where the trail is cut, the place of the decided literal before which
/// it is, and the literal of the clause that became false last but one, if it has two.
#[derive(Clone, Copy, Debug)]
pub(crate) struct Landing {
    pub literal: i32,
    pub cut: usize,
    pub other: Option<i32>,
}

/// The earliest decision before which all marked literals but this one are false, by the place of a decision before which
/// they are, and this one isn't.
pub(crate) fn landing_of(
    marks: &[bool],
    trail: &[Entry],
    variables: u32,
    place: usize,
    literal: i32,
) -> Landing
    requires kept { IsTrail variables trail.now }
    requires small { variables ≤ 2 ^ 30 }
    requires decided { IsDecidedAt trail.now place }
    requires free { is_true (take place trail.now) (neg_ℤ literal) ≡ false }
    requires falses { AreFalseBut (take place trail.now) (marked ByKey marks.now) literal }
    ensures { IsLanding trail.now (marked ByKey marks.now) literal place result }
{
    let mut cut = place;
    for back in 0..place {
        let at = place - 1 - back;
        let entry = trail[at];
        let negated = negation(entry.literal);
        if is_marked(&Places::ByKey, marks, negated) {
            return Landing {
                literal,
                cut,
                other: Some(negated),
            };
        }
        match entry.reason {
            None => cut = at,
            Some(_) => {}
        }
    }
    Landing {
        literal,
        cut,
        other: None,
    }
}
