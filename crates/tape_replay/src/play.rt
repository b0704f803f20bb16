// A tape, played call by call.
ghost use Rattle.std.specs.Prelude.{◌≡◌, ℕ, ◌≤◌, length};
ghost use Rattle.tape.specs.Desk.{Given};
ghost use Rattle.tape_replay.specs.Play.{Within, TurnWithin};
ghost use Rattle.tape_replay.specs.declared.play.TheConstants.{OUTPUT};

use crate::frame::Ending;
use std::ops::ControlFlow;
use tape::{Carried, Desk, Step};
use values::Refusal;

// A proved loop has to end. A call is handed a byte more than the one before it, or the one before it carried out a
// command, of a byte at least: a tape of 65,536 bytes takes so many calls at most.
const CALLS: u64 = 0x2_0001;

// The number of a tape whose calls do not come to an end. No frame has it.
const ENDLESS: u64 = 0xffff_ffff_ffff_ffff;

// How many bytes a tape can write: as many as the output of a frame can have, and those of one more command. So a tape
// that gives more than its frame can say is seen to do so.
const OUTPUT: usize = 0x1_4000;

// How far a tape is played: the desk, where the command begins, how many of its bytes are handed, and how many bytes
// of symbols are written.
#[derive(Clone, Copy)]
pub(crate) struct Playing {
    pub desk: Desk,
    pub at: usize,
    pub held: usize,
    pub written: usize,
}

impl Playing {
    // A field wants more bytes. They are handed too where the tape has them; if not, it ends inside the command, or
    // between two where nothing is left of it.
    fn wanting(self, more: usize, tape: usize, places: usize) -> ControlFlow<Ending, Playing>
        requires { Within self tape places }
        ensures { TurnWithin result tape places }
    {
        let left = tape - self.at;
        if more <= left - self.held {
            return ControlFlow::Continue(Playing {
                held: self.held + more,
                ..self
            });
        }
        let number = if left == 0 {
            0
        } else {
            Refusal::Cut.number() as u64
        };
        ControlFlow::Break(Ending {
            number: number,
            place: tape as u64,
            output: self.written,
        })
    }

    // A command is carried out: the next one begins behind it, and so many of its bytes are handed first as `first`
    // says of those that are left. That it is no more is a clause: a closure brings no type that says so.
    fn carried<F: Fn(usize) -> usize>(
        self,
        c: Carried,
        first: &F,
        tape: usize,
        places: usize,
    ) -> Playing
        requires within { Within self tape places }
        requires given { Given c.desk }
        requires callable { F.IsAlwaysCallable first.now }
        requires few { (left n : ℕ) → F.post first.now left n → n ≤ left }
        ensures { Within result tape places }
    {
        let at = self.at + c.used.min(self.held);
        Playing {
            desk: c.desk,
            at: at,
            held: first(tape - at),
            written: self.written + c.written.min(places - self.written),
        }
    }

    // One call, and what comes of it.
    fn call<F: Fn(usize) -> usize>(
        self,
        tape: &[u8],
        first: &F,
        output: &mut [u8],
    ) -> ControlFlow<Ending, Playing>
        requires within { Within self (length tape.now) (length output.old) }
        requires callable { F.IsAlwaysCallable first.now }
        requires few { (left n : ℕ) → F.post first.now left n → n ≤ left }
        ensures { TurnWithin result (length tape.now) (length output.old) }
    {
        let end = self.at + self.held;
        let places = output.len();
        match tape::step(self.desk, &tape[self.at..end], &mut output[self.written..]) {
            Step::Wants(more) => self.wanting(more, tape.len(), places),
            Step::Done(c) => ControlFlow::Continue(self.carried(c, first, tape.len(), places)),
            Step::Refused(stop) => ControlFlow::Break(Ending {
                number: stop.reason.number() as u64,
                place: self.at.wrapping_add(stop.read) as u64,
                output: self.written,
            }),
        }
    }
}

// How a tape ended, how many calls it took, and the buffer with its output at the front.
#[derive(Drop)]
pub(crate) struct Played {
    pub ending: Ending,
    pub calls: u64,
    pub output: [u8; OUTPUT],
    ghost inside: { ending.output ≤ OUTPUT },
}

impl Played {
    // Before a tape is played.
    fn nothing() -> Played {
        Played {
            ending: Ending {
                number: 0,
                place: 0,
                output: 0,
            },
            calls: 0,
            output: [0; OUTPUT],
        }
    }

    // Plays a tape. Of a command, so many bytes are handed first as `first` says of those that are left.
    fn play<F: Fn(usize) -> usize>(&mut self, tape: &[u8], first: F)
        requires callable { F.IsAlwaysCallable first }
        requires few { (left n : ℕ) → F.post first left n → n ≤ left }
    {
        let mut s = Playing {
            desk: Desk::Empty,
            at: 0,
            held: first(tape.len()),
            written: 0,
        };
        for calls in 1..=CALLS {
            match s.call(tape, &first, &mut self.output) {
                ControlFlow::Continue(next) => s = next,
                ControlFlow::Break(ending) => {
                    self.ending = ending;
                    self.calls = calls;
                    return;
                }
            }
        }
        self.ending = Ending {
            number: ENDLESS,
            place: 0,
            output: 0,
        };
        self.calls = CALLS;
    }
}

// A tape that is played twice: handed at once and handed field by field.
#[derive(Drop)]
pub(crate) struct Twice {
    pub at_once: Played,
    pub by_field: Played,
}

impl Twice {
    // Before a tape is played.
    pub(crate) fn nothing() -> Twice {
        Twice {
            at_once: Played::nothing(),
            by_field: Played::nothing(),
        }
    }

    // Plays a tape twice: all that is left of it is handed, or the bytes of the command that were asked for so far.
    pub(crate) fn play(&mut self, tape: &[u8]) {
        self.at_once.play(tape, |left| left);
        self.by_field.play(tape, |_| 0);
    }
}
