// Standard input, read ahead: the bytes that are read and not yet played stand in a part of a buffer.
ghost use Rattle.std.specs.Prelude.{◌≡◌, ◌-◌, ◌≤◌, length};
ghost use Rattle.tape_replay.specs.Frame.{Fits};
ghost use Rattle.tape_replay.specs.declared.window.TheConstants.{BUFFER};

use crate::frame::{Frame, WORDS};
use std::io::Read;

// How many bytes are read ahead at most. The longest frame has a fourth of them, and a little more.
const BUFFER: usize = 0x8_0000;

// How many bytes the longest frame has.
const LONGEST: usize = 0x2_0010;

// The buffer, where that part begins and ends, and whether the input has ended behind it. No heap is allowed here, so
// the places stand beside the bytes; the last bytes are played after the input has ended, so that the flag does too.
#[derive(Drop)]
pub(crate) struct Window {
    pub buffer: [u8; BUFFER],
    pub from: usize,
    pub to: usize,
    pub ended: bool,
    ghost ordered: { from ≤ to },
    ghost inside: { to ≤ BUFFER },
}

impl Window {
    // Before anything is read.
    pub(crate) fn nothing() -> Window {
        Window {
            buffer: [0; BUFFER],
            from: 0,
            to: 0,
            ended: false,
        }
    }

    // Reads ahead, unless a whole frame is there or the input has ended.
    pub(crate) fn refill(&mut self, reader: &mut impl Read) {
        let kept = self.to - self.from;
        if self.ended || kept >= LONGEST {
            return;
        }
        self.buffer.copy_within(self.from..self.to, 0);
        let n = replay::read_full(reader, &mut self.buffer[kept..]);
        self.from = 0;
        self.to = kept + n;
        self.ended = n < BUFFER - kept;
    }

    // Passes over the frame that was read. A malformed one is the last: all that was read counts as played, and no
    // more is read.
    pub(crate) fn pass(&mut self, reading: Option<Frame>)
        requires { Fits reading (self.old.to - self.old.from) }
    {
        match reading {
            Some(frame) => self.from += frame.tape + WORDS + frame.ending.output,
            None => {
                self.from = self.to;
                self.ended = true;
            }
        }
    }
}
