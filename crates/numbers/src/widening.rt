// Widening an f32 to an f64 by bits, which the original writes `f64::from`. Not by std's
// conversion: both ways go by bits (docs/DIFFERENCES.md).
ghost use Rattle.std.specs.Prelude.{◌≡◌, ◌*◌, ◌^◌, ◌<◌, ◌≤◌};
ghost use Rattle.std.specs.Float.{binary32, binary64};
ghost use Rattle.std.specs.Float.Ieee.{of_bits};

use crate::fields::{INFINITY_F32, INFINITY_F64, LEADING_F32, SIGN_F32, SIGN_F64};

// 2^-149, the smallest f32.
const SMALLEST: f64 = 1.401298464324817e-45;

// 2^29: an f64 has 29 digits more.
const MORE_DIGITS: u64 = 0x2000_0000;

// 896 in an f64's field, by which its exponent's field is greater.
const MORE_FIELD: u64 = 0x3800_0000_0000_0000;

// The bits of the f64 that is the f32 with these, which have no sign. Below 2^-126 they are a count
// of the smallest f32. From there up digits and field are moved; an infinity's field is all ones in
// both.
fn widen_bits(size: u64) -> u64
    requires { size ≤ 255 * 2 ^ 23 }
    ensures result_value { of_bits binary64 result ≡ of_bits binary32 size }
    ensures upper_bound { result < 2 ^ 63 }
{
    if size < LEADING_F32 {
        f64::to_bits(size as f64 * SMALLEST)
    } else if size < INFINITY_F32 {
        size * MORE_DIGITS + MORE_FIELD
    } else {
        INFINITY_F64
    }
}

// N6: x as an f64: the same number, the same infinity, or a NaN.
pub fn widen(x: f32) -> f64
    ensures { result ≡ x }
{
    if x != x {
        return 0.0 / 0.0;
    }
    let bits = f32::to_bits(x) as u64;
    let sign = bits / SIGN_F32;
    let size = widen_bits(bits % SIGN_F32);
    f64::from_bits(sign * SIGN_F64 + size)
}
