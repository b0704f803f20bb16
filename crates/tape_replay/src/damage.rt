// Frames whose recorded ending is altered in one place.
ghost use Rattle.std.specs.Prelude.{◌<◌, length};
ghost use Rattle.tape_replay.specs.Frame.{FrameFits};

use crate::frame::{Frame, WORDS};

// How many places there are.
const PLACES: u64 = 4;

// The number with one of its 32 bits turned over.
fn flipped(word: u64, bit: u64) -> u64 {
    word ^ (1 << (bit % 32))
}

// Turns over one bit of a byte.
fn flip_byte(bytes: &mut [u8], at: usize, bit: u64)
    requires { at < length bytes.old }
{
    bytes[at] ^= 1 << (bit % 8);
}

// The frame at the front of the bytes with one place of its ending altered, another one at each turn: a bit of the
// number, a bit of the stopping place, the output's length, a bit of one of its bytes. Without output it is one of
// the first two.
pub(crate) fn alter(frame: Frame, bytes: &mut [u8], turn: u64) -> Frame
    requires { FrameFits frame (length bytes.old) }
    ensures { FrameFits result (length bytes.old) }
{
    // Kept as a remainder: the turns go round the places, and an enum of them would be made of this number too.
    let mut wrong = frame;
    let output = frame.ending.output;
    let bit = turn / PLACES;
    let places = if output == 0 { 2 } else { PLACES };
    match turn % places {
        0 => wrong.ending.number = flipped(frame.ending.number, bit),
        1 => wrong.ending.place = flipped(frame.ending.place, bit),
        2 => wrong.ending.output = output - 1,
        _ => flip_byte(bytes, frame.tape + WORDS + bit as usize % output, bit),
    }
    wrong
}
