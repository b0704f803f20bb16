// The phase step of an f32, from fallback/costas.rs.
ghost use Rattle.std.specs.Prelude.{◌≡◌, ◌+◌, ◌-◌, ◌^◌, ◌<◌, min, T, if◌then◌else◌, nat_lt};
ghost use Rattle.std.specs.Float.Ieee.{neg, lt};
ghost use Rattle.modulate.specs.Step.{phase_step, bits_range};

use crate::modulate::{WRAP, phase_step};

// 2^32: one turn of the phase.
pub const TURN: f64 = 4_294_967_296.0;

// 2^14, the size below which the step is taken from the bits.
const BITS_RANGE: f32 = 16384.0;

// The sign's bit of an f32, and its leading one, which the bits leave out.
const SIGN: u32 = 0x8000_0000;

const LEADING: u32 = 0x80_0000;

// 2^39: a significand of 24 bits times this stays below 2^63.
const SCALE: u64 = 0x80_0000_0000;

// 2^63, where zero is moved to, and one less.
const ORIGIN: u64 = 0x8000_0000_0000_0000;

const BELOW_ORIGIN: u64 = 0x7fff_ffff_ffff_ffff;

// 2^48: above all quotients, and 0 in the low 33 bits.
const ROOM: u64 = 0x1_0000_0000_0000;

// 2^63 + m, or 2^63 - m where the bits have the sign: a choice between two numbers.
fn moved(bits: u32, m: u64) -> u64
    requires { m < 2 ^ 63 }
    ensures { result ≡ (if nat_lt bits (2 ^ 31) then 2 ^ 63 + m else 2 ^ 63 - m) }
{
    if bits < SIGN { ORIGIN + m } else { ORIGIN - m }
}

// The phase step of a v with |v| < 2^14, from its bits. v is ± m 2^(exp - 150) with a significand m of 24
// bits, so v 2^33 is S / 2^(156 - exp) with S = ± m 2^39. With q = floor(v 2^33), the original's arithmetic
// shift of S, the step is floor((q + 1) / 2). Here s is S + 2^63, which has no sign, and what the shift makes
// of 2^63 is taken off again, but for 1: that is what it makes of 2^63 - 1. 2^48 keeps the difference above 0
// and is 0 in the low 33 bits. Below exp = 94 the step is 0, and a shift by 63 gives it.
fn phase_step_bits(v: f32) -> u32
    requires lower_bound { T (lt (neg bits_range) v) }
    requires upper_bound { T (lt v bits_range) }
    ensures { result ≡ phase_step v }
{
    let bits = f32::to_bits(v);
    let exp = bits / LEADING % 0x100;
    let m = (bits % LEADING + LEADING) as u64 * SCALE;
    let s = moved(bits, m);
    let k = (156 - exp).min(63);
    let q1 = (s >> k) + (ROOM - (BELOW_ORIGIN >> k));
    (q1 / 2 % WRAP) as u32
}

// C18: the phase step `(floor(f64(v) 2^32 + 0.5) as i64) as u32`. From 2^14 up in size, and for a NaN, it is
// computed by `phase_step`; below that from the bits.
pub fn phase_step_f32(v: f32) -> u32
    ensures { result ≡ phase_step v }
{
    if v < BITS_RANGE && v > -BITS_RANGE {
        return phase_step_bits(v);
    }
    phase_step(numbers::widen(v), TURN)
}
