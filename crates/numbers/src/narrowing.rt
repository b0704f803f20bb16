// Narrowing an f64 to an f32 by bits, which the original writes `as f32`. Not by std's conversion: that it is
// done place by place is asked for (F10).
ghost use Rattle.std.specs.Prelude.{◌≡◌, cond, ◌+◌, ◌*◌, ◌^◌, ◌<◌, ◌≤◌};
ghost use Rattle.std.specs.Float.{binary32, binary64};
ghost use Rattle.std.specs.Float.Ieee.{of_bits};
ghost use Rattle.std.specs.Float.Ieee.Nearest.{closest};
ghost use Rattle.numbers.specs.Narrowing.{narrowed};

use crate::fields::{INFINITY_F32, LEADING_F32, LEADING_F64, SIGN_F32, SIGN_F64};

// The exponent's field in an f64 of 2^-150, half the smallest f32.
const HALF_SMALLEST: u64 = 873;

// That of 2^-126, the smallest f32 with 24 digits.
const NORMAL: u64 = 897;

// That of 2^128, above all finite f32.
const BEYOND: u64 = 1151;

// Of 53 digits 24 are kept. The last of the 29 places shifted out rounds; these come before it.
const SHIFTED_OUT: u64 = 28;

// F10: i / 2^(places + 1) to the nearest whole number, ties to even, where `lost` adds a half to i.
// Each call drops one place; the last one rounds, and `lost` says whether a place dropped
// before was a one. The last place is not predictable, so that no branch depends on it:
// a tie goes up where i % 4 is 3.
fn shifted(i: u64, lost: bool, places: u64) -> u64
    ensures { result ≡ closest (i * 2 + cond lost 1 0) (2 ^ (places + 2)) }
{
    if places > 0 {
        shifted(i / 2, lost || i % 2 == 1, places - 1)
    } else if lost {
        i / 2 + i % 2
    } else {
        i / 2 + i % 4 / 3
    }
}

// The bits of the f32 nearest to the f64 with these, which have no sign. From 2^-126 to below 2^128
// an f32 keeps 24 of the 53 digits; its field is 896 less, and a carry out of the digits goes into
// it. Below that the last place kept is 2^-149, so that fewer are kept, and none of a number below
// half that place.
fn narrow_bits(size: u64) -> u64
    requires { size ≤ 2047 * 2 ^ 52 }
    ensures result_value { of_bits binary32 result ≡ narrowed (of_bits binary64 size) }
    ensures upper_bound { result < 2 ^ 31 }
{
    let field = size / LEADING_F64;
    let digits = LEADING_F64 + size % LEADING_F64;
    if field < HALF_SMALLEST {
        0
    } else if field < NORMAL {
        shifted(digits, false, SHIFTED_OUT + (NORMAL - field))
    } else if field < BEYOND {
        (field - NORMAL) * LEADING_F32 + shifted(digits, false, SHIFTED_OUT)
    } else {
        INFINITY_F32
    }
}

// N5: the f32 nearest to x, ties to even, an infinity where x is too large.
// A zero keeps its sign, and a NaN stays one.
pub fn narrow(x: f64) -> f32
    ensures { result ≡ narrowed x }
{
    if x != x {
        return 0.0f32 / 0.0f32;
    }
    let bits = f64::to_bits(x);
    let sign = bits / SIGN_F64;
    let size = narrow_bits(bits % SIGN_F64);
    f32::from_bits((sign * SIGN_F32 + size) as u32)
}
