// Each cut of a recording, compared with the recording received whole.
ghost use Rattle.std.specs.Prelude.{◌≡◌, ◌&&◌};
ghost use Rattle.receiver.specs.Record.{Given, SetUpGiven};
ghost use Rattle.blocks_replay.specs.Compare.{sum_words, same_received, same_buffers, counted};

use crate::calls::{Received, receive};
use crate::cuts::{CUTS, Cut, WHOLE};
use crate::report;
use crate::tally::Tally;
use answers::same_floats;
use receiver::Receiver;
use replay_states::{carrier_words, timing_words};
use values::Refusal;

impl Received {
    // The symbol count, the refusal's number or 0, and the sums of the counts.
    fn sum_words(&self) -> [u64; 4]
        ensures { result ≡ sum_words self.now }
    {
        let number = match self.refusal {
            Some(n) => n.number() as u64,
            None => 0,
        };
        [
            self.receiver.count,
            number,
            self.consumed as u64,
            self.produced as u64,
        ]
    }

    // Every field of the receivers, the numbers and the sums of the counts.
    fn same_received(&self, other: &Received) -> bool
        ensures { result ≡ same_received self.now other.now }
    {
        let r = self.receiver;
        let s = other.receiver;
        self.sum_words() == other.sum_words()
            && (timing_words(r.timing) == timing_words(s.timing)
                && carrier_words(r.carrier) == carrier_words(s.carrier))
    }

    // Whether both gave the same. The buffers are compared to their ends, since no call writes behind its symbols.
    fn agrees(&self, other: &Received) -> bool
        ensures { result ≡ (same_received self.now other.now && same_buffers self.now.strobes other.now.strobes self.now.output other.now.output) }
    {
        self.same_received(other)
            && same_floats(&self.strobes, &other.strobes)
            && same_floats(&self.output, &other.output)
    }
}

// Counts a cut: it agrees if it gives what the recording received whole gave. A cut that differs is written.
fn judge(rt: &impl Print, t: Tally, cut: Cut, own: &Received, whole: &Received) -> Tally
    ensures { result ≡ counted t (same_received own.now whole.now && same_buffers own.now.strobes whole.now.strobes own.now.output whole.now.output) }
{
    let agrees = own.agrees(whole);
    report::cut(rt, cut, agrees);
    t.with_cut(agrees)
}

// Receives the recording whole, and then cut by cut.
fn compare_received(rt: &impl Print, r: Receiver, input: &[f32]) -> Tally
    requires { Given r }
{
    let whole = receive(r, WHOLE, input);
    let mut t = Tally::start(whole.consumed as u64, whole.produced as u64);
    for cut in CUTS {
        t = judge(rt, t, cut, &receive(r, cut, input), &whole);
    }
    t
}

// A set-up that is refused receives nothing, and all its cuts differ.
pub(crate) fn compare_cuts(
    rt: &impl Print,
    answer: Result<Receiver, Refusal>,
    input: &[f32],
) -> Tally
    requires { SetUpGiven answer }
{
    match answer {
        Ok(r) => compare_received(rt, r, input),
        Err(_) => {
            let cuts = CUTS.len() as u64;
            Tally {
                consumed: 0,
                produced: 0,
                cuts: cuts,
                differ: cuts,
            }
        }
    }
}
