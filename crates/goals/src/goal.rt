// Goals.
ghost use Rattle.std.specs.Prelude.{◌≡◌, IfOk};
ghost use Rattle.goals.specs.Forms.{word_pattern};
ghost use Rattle.goals.specs.GoalForm.{HasItsPattern};

use crate::forms::word_pattern;
use crate::goal_letter::GoalLetter;
use containers::Vector;
use fq_core::Memory;
use patterns::{Letter, Pattern};
use std::alloc::Global;
use std::marker::Model;
use std::rc::Rc;

/// A test goal: a word of the cover clause, which contracts see with its pattern. Goals share the patterns of their quoted
/// letters, and the rest of a pattern is made when it is asked for.
#[derive(Drop)]
pub struct Goal {
    word: Vector<GoalLetter>,
    quotes: Rc<Vec<Pattern<Letter>>>,
}

impl Model for Goal {
    ghost use Rattle.std.specs.Coded.{codes};
    ghost use Rattle.goals.specs.Forms.{word_pattern};
    ghost use Rattle.goals.specs.GoalForm.{GoalForm};
    ghost use Rattle.patterns.specs.contracts.letter.Letter as l;
    ghost use Rattle.patterns.specs.contracts.pattern.Pattern as e;

    ghost Value = { GoalForm };

    ghost coded = { Prim.hlevel (codes, (e.the_row l.the_row).coded) };

    ghost view = { λ it. record { word = it.word; pattern = word_pattern it.quotes.value.items it.word } };
}

impl Goal {
    /// The goal of a word, where these are the patterns of the quoted letters by number.
    pub(crate) fn new(
        word: Vector<GoalLetter>,
        quotes: &Rc<Vec<Pattern<Letter>>>,
    ) -> Result<Goal, Memory>
        ensures { IfOk result (λ goal. goal ≡ record { word = word; pattern = word_pattern quotes.now.value.items word }) }
    {
        let quotes = quotes.clone()?;
        Ok(Goal { word, quotes })
    }

    /// The letters of the goal, in order.
    pub fn word(&self) -> &[GoalLetter]
        ensures { result.now ≡ self.now.word }
    {
        self.word.as_slice()
    }

    /// The pattern of the goal: those of its letters, one after another.
    pub fn pattern(&self, alloc: Global) -> Result<Pattern<Letter>, Memory>
        ensures { IfOk result (λ p. p ≡ self.now.pattern) }
    {
        word_pattern(alloc, &self.quotes, &self.word)
    }

    /// A law of goals: the pattern is that of the word, where the quoted letters have some patterns.
    pub fn pattern_is_of_word(&self)
        ensures { HasItsPattern self.now }
    {
        let _word = &self.word;
    }
}
