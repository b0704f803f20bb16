// The words of a line: what stands in them, and comparing them with what was computed. A float agrees
// bit for bit; a NaN is recorded as 7fc00000.
ghost use Rattle.std.specs.Prelude.{◌≡◌, ◌+◌, ◌*◌, ◌/◌, ◌%◌, ◌^◌, from_bits, to_bits};
ghost use Rattle.std.specs.Float.{binary32, binary64};
ghost use Rattle.answers.specs.Line.{has};

use crate::line::Operation;
use patterns::{bits_of, of_bits};

// One in the high half of a word.
pub const HIGH: u64 = 0x1_0000_0000;

// The high half of a word as an f32.
pub fn high(word: u64) -> f32
    ensures { result ≡ from_bits binary32 (word / 2 ^ 32) }
{
    of_bits((word / HIGH) as u32)
}

// The low half.
pub fn low(word: u64) -> f32
    ensures { result ≡ from_bits binary32 (word % 2 ^ 32) }
{
    of_bits((word % HIGH) as u32)
}

// The word of two f32.
pub fn word(a: f32, b: f32) -> u64
    ensures { result ≡ to_bits binary32 a * 2 ^ 32 + to_bits binary32 b }
{
    let high = bits_of(a) as u64;
    let low = bits_of(b) as u64;
    high * HIGH + low
}

// Whether a line has these three words.
pub fn words_agree(x: u64, y: u64, z: u64, op: Operation) -> bool
    ensures { result ≡ has op x y z }
{
    x == op.x && y == op.y && z == op.answer
}

// Whether it has these three f64.
pub fn floats_agree(x: f64, y: f64, z: f64, op: Operation) -> bool
    ensures { result ≡ has op (to_bits binary64 x) (to_bits binary64 y) (to_bits binary64 z) }
{
    words_agree(bits_of(x), bits_of(y), bits_of(z), op)
}
