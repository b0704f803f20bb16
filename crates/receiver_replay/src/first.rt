// Playing a line on a receiver.
ghost use Rattle.receiver.specs.Record.{Given};

use crate::convert::{conversion_agrees, convert};
use crate::set_up::{answer, is_asked, number};
use crate::workspace::Workspace;
use answers::{HIGH, Operation, bits_of, words_agree};
use receiver::Receiver;
use replay_states::{answer_agrees, carrier_agrees, timing_agrees};

// How many f32 a buffer has.
const MOST_PLACES: u64 = 192;

// What the length of the strobe buffer counts in the word of a run's lengths.
const STROBES: u64 = 0x1_0000;

// A receiver that lines are played on.
#[derive(Clone, Copy)]
pub(crate) struct Played {
    pub r: Receiver,
    ghost given: { Given r },
}

// Whether the lengths of a run's line are those of its buffers or less.
fn lengths_fit(op: Operation) -> bool {
    op.x % STROBES <= MOST_PLACES
        && op.x / STROBES % STROBES <= MOST_PLACES
        && op.x / HIGH <= MOST_PLACES
}

fn counts_agree(r: Receiver, op: Operation) -> bool {
    words_agree(
        receiver::count(r),
        bits_of(receiver::next_strobe(r)),
        bits_of(receiver::sps_estimate(r)),
        op,
    )
}

fn readings_agree(r: Receiver, op: Operation) -> bool {
    let flags = op.answer / HIGH;
    words_agree(
        bits_of(receiver::frequency(r)),
        bits_of(receiver::lock_level(r)) as u64,
        op.answer,
        op,
    ) && receiver::phase(r) as u64 == op.answer % HIGH
        && receiver::locked(r) == (flags % 2 == 1)
        && plain::constellation_code(receiver::constellation(r)) as u64 == flags / 2
}

// Whether what the letter names agrees. No other letter is left. Kept as a match: the letters are the file's.
fn fields_agree(r: Receiver, op: Operation) -> bool {
    match op.letter {
        b'd' => carrier_agrees(r.carrier, 0, op),
        b'g' => carrier_agrees(r.carrier, 1, op),
        b'w' => carrier_agrees(r.carrier, 2, op),
        b'l' => carrier_agrees(r.carrier, 3, op),
        b'q' => counts_agree(r, op),
        b'e' => readings_agree(r, op),
        _ => timing_agrees(r.timing, op),
    }
}

impl Played {
    pub(crate) fn on(r: Receiver) -> Self
        requires { Given r }
    {
        Played { r }
    }

    // Sets up anew, if the line asks for a set-up that there is. It agrees if it is refused with the recorded number, or
    // accepted where that is 0. A refused set-up leaves the receiver that was there.
    fn set_up(&mut self, op: Operation, work: &Workspace) -> bool {
        if !is_asked(op) {
            return false;
        }
        match answer(work, op) {
            Ok(fresh) => {
                self.r = fresh;
                number(op) == 0
            }
            Err(n) => number(op) == n.number() as u64,
        }
    }

    pub(crate) fn reset(&mut self) {
        self.r = receiver::reset(self.r);
    }

    pub(crate) fn set_phase(&mut self, phase: u64) {
        self.r = receiver::set_phase(self.r, (phase % HIGH) as u32);
    }

    // Another count: no run of a replay reaches the largest one.
    pub(crate) fn set_count(&mut self, count: u64) {
        self.r.count = count;
    }

    // Converts the record down and up again, unless its count is too large.
    pub(crate) fn convert(&mut self) {
        self.r = convert(self.r);
    }

    // Runs on as much of the buffers as the line says, and no more than there is. Kept apart from `Buffers::lend`, which
    // lends nothing where a line says more.
    pub(crate) fn run(
        &mut self,
        op: Operation,
        input: &[f32],
        strobes: &mut [f32],
        output: &mut [f32],
    ) -> bool {
        let n = input.len().min((op.x % STROBES) as usize);
        let found = strobes.len().min((op.x / STROBES % STROBES) as usize);
        let places = output.len().min((op.x / HIGH) as usize);
        let ran = sample_calls::run(
            self.r,
            &input[..n],
            &mut strobes[..found],
            &mut output[..places],
        );
        self.r = ran.receiver;
        lengths_fit(op) && answer_agrees(ran.answer, op)
    }

    // Sets up, resets, sets, runs, or compares fields, and says whether the line agrees. `agrees` is what the buffers
    // say of it.
    pub(crate) fn play(&mut self, op: Operation, work: &mut Workspace, agrees: bool) -> bool {
        // Kept as a match: the letters are the file's.
        match op.letter {
            b'n' | b'u' => self.set_up(op, work),
            b'z' => {
                self.reset();
                agrees
            }
            b'r' => self.run(
                op,
                &work.samples.input,
                &mut work.strobes.output,
                &mut work.samples.output,
            ),
            b'p' => {
                self.set_phase(op.x);
                words_agree(op.x % HIGH, 0, 0, op)
            }
            b'j' => {
                self.set_count(op.x);
                words_agree(op.x, 0, 0, op)
            }
            b'x' => {
                let agrees = conversion_agrees(self.r, op);
                self.convert();
                agrees
            }
            _ => agrees || fields_agree(self.r, op),
        }
    }
}
