// The kinds of lines that a program plays. A letter is a byte of the recorded lines, and stays one.
ghost use Rattle.std.specs.Prelude.{◌≡◌};
ghost use Rattle.std.specs.List.{position};
ghost use Rattle.replay.specs.Kinds.{among, place_in};

use crate::tally::Tally;

// A kind of lines that have an answer: the letters that they begin with, and what their count is written under.
#[derive(Clone, Copy)]
pub struct Kind {
    pub letters: &'static [u8],
    pub name: &'static str,
}

// Those kinds, each counted at the place that it has here, and the letters of the lines that have no answer.
#[derive(Clone, Copy)]
pub struct Kinds {
    pub answered: &'static [Kind],
    pub unanswered: &'static [u8],
}

impl Kind {
    fn has(&self, letter: u8) -> bool
        ensures { result ≡ among letter self.now.letters.now }
    {
        self.letters.contains(&letter)
    }
}

// The place of the first kind that has the letter.
fn kind_of(kinds: &[Kind], letter: u8) -> Option<usize>
    ensures { result ≡ position (λ kind. among letter kind.letters.now) kinds.now }
{
    kinds.iter().position(|kind| kind.has(letter))
}

impl Kinds {
    // The letter's place in the tally.
    pub fn place(&self, letter: u8) -> usize
        ensures { result ≡ place_in self.now letter }
    {
        match kind_of(self.answered, letter) {
            Some(k) => k,
            None if self.unanswered.contains(&letter) => Tally::UNANSWERED,
            None => Tally::MALFORMED,
        }
    }
}
