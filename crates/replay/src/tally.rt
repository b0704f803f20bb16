// The tally of recorded answers that were played.
ghost use Rattle.std.specs.Prelude.{◌≡◌, ◌<◌, nat_lt};
ghost use Rattle.replay.specs.Tally.{place_of, one_more, counted, Tallied, ended, none_counted, none_damaged};

use crate::LINES;
use crate::kinds::Kinds;
use crate::report::{count as report, malformed, missed, summary};

// So many lines that differ are written.
const SHOWN: u64 = 20;

// How many lines there were of each kind, how many in all, and how many of them differ. Twelve kinds have an answer;
// then come the malformed lines, and those that have no answer.
#[derive(Clone, Copy)]
pub struct Tally {
    pub places: [u64; 14],
    pub all: u64,
    pub differ: u64,
}

// The place of a kind of lines, and that of the malformed lines where there is none.
fn known(place: usize) -> usize
    ensures place { result ≡ place_of place }
    ensures there { result < 14 }
{
    if place < 14 { place } else { Tally::MALFORMED }
}

fn one_more(n: u64) -> u64
    ensures { result ≡ one_more n }
{
    n.wrapping_add(1)
}

impl Tally {
    // Kept as numbers: `count` takes any, and counts one beyond the last as malformed.
    pub const MALFORMED: usize = 12;

    pub const UNANSWERED: usize = 13;

    // Before the first line.
    pub fn new() -> Self
        ensures { result ≡ none_counted }
    {
        Tally {
            places: [0; 14],
            all: 0,
            differ: 0,
        }
    }

    // The tally of damaged lines. It writes none of them: as many are counted as differing beforehand as are
    // written.
    pub fn of_damaged() -> Self
        ensures { result ≡ none_damaged }
    {
        Tally {
            places: [0; 14],
            all: 0,
            differ: SHOWN,
        }
    }

    // Counts a line at its place.
    pub fn count(&mut self, place: usize, agrees: bool)
        ensures tallied { Tallied 1 self.old self.new }
        ensures counted { self.new ≡ counted self.old place agrees }
    {
        let place = known(place);
        self.places[place] = one_more(self.places[place]);
        self.all = one_more(self.all);
        if !agrees {
            self.differ = one_more(self.differ);
        }
    }

    // Whether another line that differs is to be written.
    pub fn shows_more(&self) -> bool
        ensures { result ≡ nat_lt self.now.differ 20 }
    {
        self.differ < SHOWN
    }

    // Counts a line at its place, and writes it if it is one of the first that differ.
    pub fn count_line(&mut self, rt: &impl Print, place: usize, line: &[u8], agrees: bool)
        ensures tallied { Tallied 1 self.old self.new }
        ensures counted { self.new ≡ counted self.old place agrees }
    {
        if !agrees && self.shows_more() {
            missed(rt, line);
        }
        self.count(place, agrees);
    }

    // How many lines were counted.
    pub fn played(&self) -> u64
        ensures { result ≡ self.now.all }
    {
        self.all
    }

    // Counts input that goes on after the last line that is read as one answer that differs.
    pub fn too_long(&mut self, rt: &impl Print, lines: u64)
        ensures { self.new ≡ ended self.old lines }
    {
        if lines < LINES {
            return;
        }
        malformed(rt, b"the input is too long");
        self.differ = one_more(self.differ);
    }

    // Writes the count at a place.
    pub fn show_at(&self, rt: &impl Print, place: usize, name: &[u8]) {
        report(rt, name, self.places[known(place)]);
    }

    // Writes the last counts: malformed lines, damaged lines that were found to differ, all answers and those that
    // differ.
    pub fn show_end(&self, rt: &impl Print, damaged: &Tally) {
        self.show_at(rt, Tally::MALFORMED, b"malformed");
        report(rt, b"damaged_seen", damaged.differ.wrapping_sub(SHOWN));
        summary(rt, self.all, self.differ);
    }

    // Writes the counts, each of the kinds' first.
    pub fn show(&self, rt: &impl Print, kinds: &Kinds, damaged: &Tally) {
        for (k, kind) in kinds.answered.iter().enumerate() {
            self.show_at(rt, k, kind.name.as_bytes());
        }
        self.show_end(rt, damaged);
    }
}
