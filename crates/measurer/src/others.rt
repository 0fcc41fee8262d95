// The goals that are not in the index.
ghost use Rattle.std.specs.Prelude.{◌≡◌, ◌↔◌, Bool, List, true, IfOk, OnOk, length};
ghost use Rattle.patterns.specs.Match.{Form};
ghost use Rattle.automata.specs.Standing.{IsOf};
ghost use Rattle.measurer_index.specs.gap_words.Placed.{path_of};
ghost use Rattle.goals.specs.GoalForm.{GoalForm};
ghost use Rattle.patterns.specs.Segments.{HasSegment};
ghost use Rattle.measurer_index.specs.word_index.Numbers.{Adds};
ghost use Rattle.measurer.specs.Measured.{AreMatchers, HasOtherMatch, Tells};
ghost use Rattle.measurer.specs.Openings.{AreFirstPlaces, IsOpening};

use crate::openings::{first_places, first_state};
use crate::tables::{GoalMatcher, Matcher};
use automata::Nfa;
use fq_core::Memory;
use measurer_hits::run_match::{RunPath, has_match};
use measurer_index::gap_words::{GapSets, PathPlaces};
use measurer_index::word_index::Numbers;
use patterns::Letter;
use std::alloc::Global;

/// Whether a path has a match of the pattern of an automaton. Where each match takes the same edge first, the automaton
/// begins at the first state from which the path takes it, and isn't run where it never does.
fn automaton_accepts(
    alloc: Global,
    opening: Option<u32>,
    automaton: &Nfa<Letter>,
    places: &[usize],
    path: &RunPath,
) -> Result<bool, Memory>
    requires { AreFirstPlaces path.now.edges places.now }
    ensures { (pattern : Form Letter) (first last : Bool) → IsOf automaton.now pattern first last → IsOpening opening first pattern → IfOk result (λ b. (b ≡ true) ↔ HasSegment first last pattern path.now) }
{
    let Some(edge) = opening else {
        return has_match(alloc, automaton, path);
    };
    let start = first_state(places, path, edge);
    if start >= path.edges().len() {
        return Ok(false);
    }
    has_match(alloc, automaton, &path.starting_at(start))
}

/// Whether a path has a match of a goal.
fn has_own_match(
    alloc: Global,
    own: &GoalMatcher,
    places: &[usize],
    row: &PathPlaces,
    path: &RunPath,
    first: bool,
    last: bool,
) -> Result<bool, Memory>
    requires places { AreFirstPlaces path.now.edges places.now }
    requires row { path_of row.now ≡ path.now }
    ensures { IfOk result (λ b. Tells row.now.sets first last path.now own.now b) }
{
    match &own.matcher {
        Matcher::Gaps(word) => Ok(word.has_match(row, first, last)),
        Matcher::Automaton { opening, automaton } => {
            automaton_accepts(alloc, *opening, automaton, places, path)
        }
    }
}

/// Adds the numbers of these goals that the path has a match of, where these are the first places of its edges and this is
/// the path with all their places.
fn add_matched(
    alloc: Global,
    matchers: &[GoalMatcher],
    places: &[usize],
    row: &PathPlaces,
    path: &RunPath,
    first: bool,
    last: bool,
    numbers: &mut Numbers,
) -> Result<(), Memory>
    requires places { AreFirstPlaces path.now.edges places.now }
    requires row { path_of row.now ≡ path.now }
    ensures { (goals : List GoalForm) → AreMatchers row.now.sets goals first last (length goals) matchers.now → OnOk result (Adds (HasOtherMatch goals first last path.now) numbers.old numbers.new) }
{
    for own in matchers {
        if has_own_match(alloc, own, places, row, path, first, last)? {
            numbers.add(own.number)?;
        }
    }
    Ok(())
}

/// Adds the numbers of these goals, whose gaps go over these sets of edges, that the path has a match of.
pub(crate) fn add_others(
    alloc: Global,
    matchers: &[GoalMatcher],
    sets: &GapSets,
    path: &RunPath,
    first: bool,
    last: bool,
    numbers: &mut Numbers,
) -> Result<(), Memory>
    ensures { (goals : List GoalForm) → AreMatchers sets.now goals first last (length goals) matchers.now → OnOk result (Adds (HasOtherMatch goals first last path.now) numbers.old numbers.new) }
{
    let count = matchers.len();
    if count == 0 {
        return Ok(());
    }
    let edges = path.edges();
    let places = first_places(alloc, edges)?;
    let row = PathPlaces::new(alloc, path.nodes(), edges, path.masks(), sets)?;
    add_matched(alloc, matchers, &places, &row, path, first, last, numbers)
}
