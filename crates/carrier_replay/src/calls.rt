// Playing a line on a state.
ghost use Rattle.carrier.specs.State.{Given};

use crate::counts::KINDS;
use answers::{HIGH, Operation, of_bits, words_agree};
use carrier::{CarrierValues, CostasState, number_of};
use replay::Player;
use replay::buffers::Buffers;
use replay::tally::Tally;
use replay_states::carrier_agrees;

// The state that calls are played on, and what the lines before leave for the next set-up and the next run.
#[derive(Clone, Copy)]
pub(crate) struct Calls {
    state: CostasState,
    buffers: Buffers,
    ghost given: { Given state },
}

// The row of the state that a letter names, or one that there is not. Kept as a number: `carrier_agrees` promises what
// comes of a row that is not there.
fn row(letter: u8) -> usize {
    match letter {
        b'a' => 0,
        b'k' => 1,
        b's' => 2,
        b'l' => 3,
        _ => 4,
    }
}

// Each plays an operation, and says whether it agrees.
impl Calls {
    pub(crate) fn on(state: CostasState) -> Self
        requires { Given state }
    {
        Calls {
            state,
            buffers: Buffers::new(),
        }
    }

    // Sets up anew, unless the line names no constellation. It agrees if it is refused with the recorded number, or
    // accepted where that is 0. A refused set-up leaves the state that was there.
    fn set_up(&mut self, op: Operation) -> bool {
        if op.x > 2 {
            return false;
        }
        let [loop_bw, damping, max_offset] = self.buffers.set_up;
        let v = CarrierValues {
            loop_bw: of_bits(loop_bw),
            damping: of_bits(damping),
            max_offset: of_bits(max_offset),
        };
        let answer = carrier::set_up(plain::constellation(op.x as u32), v);
        match answer {
            Ok(fresh) => {
                self.state = fresh;
                words_agree(op.x, 0, 0, op)
            }
            Err(n) => words_agree(op.x, 0, n.number() as u64, op),
        }
    }

    // Runs on as much of the buffers as the line says, and not at all if they have less.
    fn run(&mut self, op: Operation) -> bool {
        let Some((input, output)) = self.buffers.lend(op) else {
            return false;
        };
        let ran = costas::run(self.state, input, output);
        self.state = ran.state;
        words_agree(op.x, 0, number_of(ran.answer) as u64, op)
    }

    fn set_phase(&mut self, op: Operation) -> bool {
        let phase = op.x % HIGH;
        self.state = carrier::set_phase(self.state, phase as u32);
        words_agree(phase, 0, 0, op)
    }

    fn set_frequency(&mut self, op: Operation) -> bool {
        self.state = carrier::set_frequency(self.state, of_bits(op.x));
        words_agree(op.x, 0, 0, op)
    }

    // Sets up, resets, sets, runs, or compares fields, unless the buffers agree already.
    fn agrees(&mut self, op: Operation) -> bool {
        let agrees = self.buffers.play(op);
        // Kept as a match: the letters are the file's.
        match op.letter {
            b'n' => self.set_up(op),
            b'z' => {
                self.state = carrier::reset(self.state);
                agrees
            }
            b'p' => self.set_phase(op),
            b'q' => self.set_frequency(op),
            b'r' => self.run(op),
            _ => agrees || carrier_agrees(self.state, row(op.letter), op),
        }
    }
}

impl Player for Calls {
    fn play(&mut self, rt: &impl Print, op: Operation, line: &[u8], tally: &mut Tally) {
        let agrees = self.agrees(op);
        tally.count_line(rt, KINDS.place(op.letter), line, agrees);
    }
}
