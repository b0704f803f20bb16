// What is counted, and what is written of it.
ghost use Rattle.std.specs.Prelude.{◌≡◌, ◌+◌, ◌^◌, ◌<◌};
ghost use Rattle.replay.specs.Tally.{counted, none_counted, Tallied};
ghost use Rattle.tape_replay.specs.Compare.{number_place};

use crate::frame::Frame;
use crate::play::Twice;
use replay::tally::Tally;

// How many numbers there are: 0 to 11.
const NUMBERS: u64 = 12;

const NAMES: [&str; 12] = [
    "number_0",
    "number_1",
    "number_2",
    "number_3",
    "number_4",
    "number_5",
    "number_6",
    "number_7",
    "number_8",
    "number_9",
    "number_10",
    "number_11",
];

// What is counted: how many frames there were, the bytes of their tapes and outputs, and the calls that the tapes
// took, handed at once and field by field; and the tallies of the frames and of the damaged ones.
#[derive(Drop)]
pub(crate) struct Counts {
    pub frames: u64,
    pub tape: u64,
    pub output: u64,
    pub at_once: u64,
    pub by_field: u64,
    pub tally: Tally,
    pub damaged: Tally,
}

impl Counts {
    pub(crate) fn nothing() -> Counts
        ensures frames { result.frames ≡ 0 }
        ensures tally { result.tally ≡ none_counted }
    {
        Counts {
            frames: 0,
            tape: 0,
            output: 0,
            at_once: 0,
            by_field: 0,
            tally: Tally::new(),
            damaged: Tally::of_damaged(),
        }
    }

    // Sums up a frame that was played. That there are fewer than 2^26 so far is a clause: only the loop that counts its
    // turns knows it.
    pub(crate) fn add_frame(&mut self, frame: Frame, twice: &Twice)
        requires { self.old.frames < 2 ^ 26 }
        ensures frames { self.new.frames ≡ self.old.frames + 1 }
        ensures tally { self.new.tally ≡ self.old.tally }
    {
        self.frames += 1;
        self.tape = self.tape.wrapping_add(frame.tape as u64);
        self.output = self.output.wrapping_add(frame.ending.output as u64);
        self.at_once = self.at_once.wrapping_add(twice.at_once.calls);
        self.by_field = self.by_field.wrapping_add(twice.by_field.calls);
    }

    // Counts a malformed frame, which differs, and writes it if it is one of the first.
    pub(crate) fn add_malformed(&mut self, rt: &impl Print)
        requires { self.old.frames < 2 ^ 26 }
        ensures frames { self.new.frames ≡ self.old.frames + 1 }
        ensures tallied { Tallied 1 self.old.tally self.new.tally }
    {
        report(rt, &self.tally, self.frames, false);
        self.tally.count(Tally::MALFORMED, false);
        self.frames += 1;
    }

    // Writes the counts.
    pub(crate) fn show(&self, rt: &impl Print) {
        line(rt, "frames", self.frames);
        line(rt, "tape_bytes", self.tape);
        line(rt, "output_bytes", self.output);
        line(rt, "calls_at_once", self.at_once);
        line(rt, "calls_by_field", self.by_field);
        for (number, name) in NAMES.iter().enumerate() {
            self.tally.show_at(rt, number, name.as_bytes());
        }
        self.tally.show_end(rt, &self.damaged);
    }
}

// A number's place in the tally, where it has one of its own; any other counts as malformed.
fn place(number: u64) -> usize
    ensures { result ≡ number_place number }
{
    if number < NUMBERS {
        number as usize
    } else {
        Tally::MALFORMED
    }
}

// Counts a frame by its number, which is the one that the frame records.
pub(crate) fn count(tally: &mut Tally, number: u64, agrees: bool)
    ensures tallied { Tallied 1 tally.old tally.new }
    ensures counted { tally.new ≡ counted tally.old (number_place number) agrees }
{
    tally.count(place(number), agrees);
}

// ---- What is written. No contract can say what that is. A write that fails is passed over.
// Two writes, so that what there is room for is out where one fails.
fn line(rt: &impl Print, name: &str, n: u64) {
    let _ = print!(rt; "{name}");
    let _ = println!(rt; " {n}");
}

// Writes which frame differs, if it does and is one of the first.
pub(crate) fn report(rt: &impl Print, tally: &Tally, index: u64, agrees: bool) {
    if !agrees && tally.shows_more() {
        line(rt, "missed frame", index);
    }
}
