// How a tape ended, compared with what its frame says.
ghost use Rattle.std.specs.Prelude.{◌≡◌, length};
ghost use Rattle.tape_replay.specs.Frame.{FrameFits};
ghost use Rattle.replay.specs.Tally.{counted, Tallied};
ghost use Rattle.tape_replay.specs.Compare.{agreed, agreed_twice, number_place};

use crate::counts;
use crate::frame::{Frame, WORDS};
use crate::play::{Played, Twice};
use answers::same_bytes;
use replay::tally::Tally;

// Whether a tape ended as its frame says, handed at once and handed field by field. Kept as one place for both verdicts:
// oracle/blind_replays.py drops a comparison here.
#[derive(Clone, Copy)]
struct Agreement {
    at_once: bool,
    by_field: bool,
}

// A frame, and the bytes at whose front it stands.
#[derive(Clone, Copy)]
pub(crate) struct Recorded<'a> {
    pub frame: Frame,
    pub bytes: &'a [u8],
    ghost fits: { FrameFits frame (length bytes.now) },
}

impl<'a> Recorded<'a> {
    // Whether a tape ended as the frame says: with its number, at its place, and with its output byte for byte.
    #[tactic(auto, unfolding(crate::specs::Compare::agreed))]
    fn agrees(self, played: &Played) -> bool
        ensures { result ≡ agreed self.entry.frame self.entry.bytes.now played.now.ending played.now.output }
    {
        let ending = played.ending;
        let recorded = self.frame.ending;
        let from = self.frame.tape + WORDS;
        let to = from + recorded.output;
        ending.number == recorded.number
            && ending.place == recorded.place
            && same_bytes(&played.output[..ending.output], &self.bytes[from..to])
    }

    // Whether it did so each of the two times.
    fn agrees_twice(self, twice: &Twice) -> Agreement
        ensures at_once { result.at_once ≡ agreed self.entry.frame self.entry.bytes.now twice.now.at_once.ending twice.now.at_once.output }
        ensures by_field { result.by_field ≡ agreed self.entry.frame self.entry.bytes.now twice.now.by_field.ending twice.now.by_field.output }
    {
        Agreement {
            at_once: self.agrees(&twice.at_once),
            by_field: self.agrees(&twice.by_field),
        }
    }

    // Counts the frame, which must agree both times.
    pub(crate) fn judge(self, rt: &impl Print, twice: &Twice, index: u64, tally: &mut Tally)
        ensures tallied { Tallied 1 tally.old tally.new }
        ensures counted { tally.new ≡ counted tally.old (number_place self.entry.frame.ending.number) (agreed_twice self.entry.frame self.entry.bytes.now twice.now) }
    {
        let agreement = self.agrees_twice(twice);
        let agrees = agreement.at_once && agreement.by_field;
        counts::report(rt, tally, index, agrees);
        counts::count(tally, self.frame.ending.number, agrees);
    }

    // Counts a damaged frame, which must be seen to differ both times.
    pub(crate) fn judge_damaged(self, twice: &Twice, damaged: &mut Tally) {
        let agreement = self.agrees_twice(twice);
        let agrees = agreement.at_once || agreement.by_field;
        counts::count(damaged, self.frame.ending.number, agrees);
    }
}
