// A frame of the input: a tape, and how it was recorded to end.
ghost use Rattle.std.specs.Prelude.{◌≡◌, ◌+◌, ◌≤◌, length};
ghost use Rattle.tape_replay.specs.Frame.{word_at, reading_of, Fits};

use little_endian::little_endian;

// The longest tape, and the longest output.
const LONGEST: usize = 0x1_0000;

// How many bytes a number has. The tape stands behind the first one.
pub(crate) const WORD: usize = 4;

// Where the other three stand, counted without the tape, and how many bytes all four have.
const NUMBER: usize = 4;

const PLACE: usize = 8;

const LENGTH: usize = 12;

pub(crate) const WORDS: usize = 16;

// How a tape ends: its number, 0 where nothing is refused; its stopping place; and how many bytes of output it gave.
// Kept as a number: it is the word that the frame records, which `agreed` compares, and may name no refusal.
#[derive(Clone, Copy)]
pub(crate) struct Ending {
    pub number: u64,
    pub place: u64,
    pub output: usize,
}

// How long the tape is, and how it ends.
#[derive(Clone, Copy)]
pub(crate) struct Frame {
    pub tape: usize,
    pub ending: Ending,
}

// The number that stands at a place.
fn word_at(bytes: &[u8], from: usize) -> u64
    requires { from + 4 ≤ length bytes.now }
    ensures { result ≡ word_at bytes.now from }
{
    let to = from + WORD;
    little_endian(&bytes[from..to])
}

// The frame at the front of the bytes. It is malformed if it is cut off, or if its tape or its output is too long.
pub(crate) fn read_frame(bytes: &[u8]) -> Option<Frame>
    ensures reading { result ≡ reading_of bytes.now }
    ensures fits { Fits result (length bytes.now) }
{
    if bytes.len() < WORD {
        return None;
    }
    let tape = word_at(bytes, 0) as usize;
    if tape > LONGEST {
        return None;
    }
    let from = tape + WORDS;
    if bytes.len() < from {
        return None;
    }
    let output = word_at(bytes, tape + LENGTH) as usize;
    if output > LONGEST {
        return None;
    }
    if bytes.len() < from + output {
        return None;
    }
    let ending = Ending {
        number: word_at(bytes, tape + NUMBER),
        place: word_at(bytes, tape + PLACE),
        output: output,
    };
    Some(Frame {
        tape: tape,
        ending: ending,
    })
}
