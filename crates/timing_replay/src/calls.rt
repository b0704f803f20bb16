// Playing a line: its set-up, and what it leaves.
ghost use Rattle.timing.specs.Run.{Given};

use crate::counts::KINDS;
use crate::timed::play;
use answers::{Operation, of_bits};
use replay::Player;
use replay::buffers::Buffers;
use replay::tally::Tally;
use timing::{SymbolSyncState, TimingValues};
use values::{C32, Refusal};

// The state that lines are played on, of either kind, once a set-up was accepted. Kept as one enum: an Option of an enum
// of two would be matched twice.
#[derive(Clone, Copy)]
enum Slot {
    Empty,
    Real(Real),
    Complex(Complex),
}

// States that a set-up, a reset or a run has given. Kept as two structs: Clone can be derived for no generic struct with
// a ghost field.
#[derive(Clone, Copy)]
struct Real {
    state: SymbolSyncState<f32>,
    ghost given: { Given state },
}

#[derive(Clone, Copy)]
struct Complex {
    state: SymbolSyncState<C32>,
    ghost given: { Given state },
}

// The state, and what the lines before leave for the next set-up and the next run.
#[derive(Clone, Copy)]
pub(crate) struct Calls {
    slot: Slot,
    buffers: Buffers,
}

// What the `v` line before and this one ask for.
fn asked(words: [u64; 3], op: Operation) -> TimingValues {
    let [sps, loop_bw, damping] = words;
    TimingValues {
        sps: of_bits(sps),
        ted: plain::detector((op.answer % 16 / 2) as u32),
        loop_bw: of_bits(loop_bw),
        damping: of_bits(damping),
        max_deviation: of_bits(op.x),
        ted_gain: of_bits(op.y),
    }
}

// The number that a set-up is refused with, or 0 if it is accepted.
fn number_of<S: Copy>(answer: Result<S, Refusal>) -> u64 {
    match answer {
        Ok(_) => 0,
        Err(n) => n.number() as u64,
    }
}

impl Calls {
    // Before the first line.
    pub(crate) fn new() -> Self {
        Calls {
            slot: Slot::Empty,
            buffers: Buffers::new(),
        }
    }

    // Sets up anew. It agrees if it is refused with the recorded number, or accepted where that is 0. A refused set-up
    // leaves no state.
    fn set_up(&mut self, op: Operation) -> bool {
        let v = asked(self.buffers.set_up, op);
        let number = op.answer / 16;
        if op.answer % 2 == 0 {
            let answer = timing_loop::set_up(v);
            self.slot = match answer {
                Ok(state) => Slot::Real(Real { state }),
                Err(_) => Slot::Empty,
            };
            return number == number_of(answer);
        }
        let answer = timing_loop::set_up(v);
        self.slot = match answer {
            Ok(state) => Slot::Complex(Complex { state }),
            Err(_) => Slot::Empty,
        };
        number == number_of(answer)
    }

    // Plays an operation, and says whether it agrees.
    fn agrees(&mut self, op: Operation) -> bool {
        let agrees = self.buffers.play(op);
        if op.letter == b'n' {
            return self.set_up(op);
        }
        match &mut self.slot {
            Slot::Empty => agrees,
            Slot::Real(s) => play(&mut s.state, op, &mut self.buffers, agrees),
            Slot::Complex(s) => play(&mut s.state, op, &mut self.buffers, agrees),
        }
    }
}

impl Player for Calls {
    fn play(&mut self, rt: &impl Print, op: Operation, line: &[u8], tally: &mut Tally) {
        let agrees = self.agrees(op);
        tally.count_line(rt, KINDS.place(op.letter), line, agrees);
    }
}
