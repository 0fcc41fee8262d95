// What follows from the definitions alone.
ghost use Rattle.std.specs.Prelude.{◌≡◌, ◌↔◌, map};
ghost use Rattle.std.specs.List.{AllPairs, Contains};
ghost use Rattle.goals.specs.applied_clauses.Trees.{Tree};
ghost use Rattle.goals.specs.GoalForm.{GoalForm};
ghost use Rattle.goals.specs.Plans.{goals_of};
ghost use Rattle.goals.specs.Words.{Word, goal_words, words_of};

/// The goals of a cover clause have the different words of the clause: each goal one of them, no two goals the same, and
/// each word of the clause is that of some goal.
pub fn goals_are_the_different_words()
    ensures words { (cover : Tree) → map (λ (g : GoalForm). g.word) (goals_of cover) ≡ goal_words cover }
    ensures different { (cover : Tree) → AllPairs (λ (v w : Word). v ≡ w → ⊥) (goal_words cover) }
    ensures all { (cover : Tree) (w : Word) → Contains (words_of cover) w ↔ Contains (goal_words cover) w }
{}
