// Words without later duplicates.
ghost use Rattle.std.specs.Prelude.{◌≡◌, [], IfOk, map};
ghost use Rattle.goals.specs.Words.{same_word};
ghost use Rattle.indexmap.specs.IndexSet.{insert_all};

use crate::goal_letter::GoalLetter;
use containers::Vector;
use fq_core::Memory;
use indexmap::IndexSet;
use std::alloc::Global;

fn gathered(
    alloc: Global,
    words: Vector<Vector<GoalLetter>>,
) -> Result<IndexSet<Vec<GoalLetter>>, Memory>
    ensures { IfOk result (λ set. map (λ v. v.items) set.keys ≡ insert_all same_word [] words) }
{
    let mut set = IndexSet::new(alloc);
    for word in words.into_vec() {
        set.insert(word.into_vec())?;
    }
    Ok(set)
}

/// The words, each once, at the place of the first.
pub(crate) fn distinct(
    alloc: Global,
    words: Vector<Vector<GoalLetter>>,
) -> Result<Vector<Vector<GoalLetter>>, Memory>
    ensures { IfOk result (λ different. different ≡ insert_all same_word [] words) }
{
    let mut different = Vector::new(alloc);
    for word in gathered(alloc, words)? {
        different.push(Vector::from_vec(word))?;
    }
    Ok(different)
}
