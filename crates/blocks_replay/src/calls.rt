// A recording received block by block, in as many calls as it takes.
ghost use Rattle.std.specs.Prelude.{◌≤◌};
ghost use Rattle.receiver.specs.Record.{Given};

use crate::cuts::Cut;
use receiver::Receiver;
use values::Refusal;

// How many f32 each buffer has.
const PARTS: usize = 8192;

// What the calls have come to: the last receiver, why the last call was refused if it was, how many f32 of the input
// were handed over, the sums of the counts, and what the calls have stored.
#[derive(Clone, Copy)]
pub(crate) struct Received {
    pub receiver: Receiver,
    pub refusal: Option<Refusal>,
    pub handed: usize,
    pub consumed: usize,
    pub produced: usize,
    pub strobes: [f32; PARTS],
    pub output: [f32; PARTS],
}

// How many f32 so many samples have, where there is room for no more than `room` f32.
fn parts_of(samples: usize, room: usize) -> usize
    ensures { result ≤ room }
{
    samples.saturating_mul(2).min(room)
}

impl Received {
    // Before the first call.
    fn nothing(r: Receiver) -> Received
        requires { Given r }
        ensures { Given result.receiver }
    {
        Received {
            receiver: r,
            refusal: None,
            handed: 0,
            consumed: 0,
            produced: 0,
            strobes: [0.0f32; PARTS],
            output: [0.0f32; PARTS],
        }
    }

    // The next call: it is handed what the last one left and the next block, and stores its symbols behind
    // those before.
    fn call(&mut self, cut: Cut, input: &[f32])
        requires { Given self.old.receiver }
        ensures { Given self.new.receiver }
    {
        let handed = self.handed.min(input.len());
        let end = handed + parts_of(cut.block, input.len() - handed);
        let at = parts_of(self.consumed, end);
        let from = parts_of(self.produced, PARTS);
        let to = from + parts_of(cut.places, PARTS - from);
        let answer = sample_calls::receive(
            &mut self.receiver,
            &input[at..end],
            &mut self.strobes[from..to],
            &mut self.output[from..to],
        );
        self.handed = end;
        match answer {
            Ok(p) => {
                self.refusal = None;
                self.consumed = self.consumed.wrapping_add(p.consumed);
                self.produced = self.produced.wrapping_add(p.produced);
            }
            Err(n) => self.refusal = Some(n),
        }
    }

    // Whether no call follows: one was refused, or all is consumed.
    fn is_over(&self, input: &[f32]) -> bool {
        self.refusal.is_some() || input.len() / 2 <= self.consumed
    }
}

// Receives the input block by block. After the last block what is left is handed again. A proved loop has
// to end: as many calls are made at most as the input has f32.
pub(crate) fn receive(r: Receiver, cut: Cut, input: &[f32]) -> Received
    requires { Given r }
    ensures { Given result.receiver }
{
    let mut received = Received::nothing(r);
    for _ in 0..input.len() {
        received.call(cut, input);
        if received.is_over(input) {
            break;
        }
    }
    received
}
