// The phase step of an f64, from fallback/modulate.rs: saturating casts become comparisons.
ghost use Rattle.std.specs.Prelude.{◌≡◌, T, if◌then◌else◌};
ghost use Rattle.std.specs.Float.Ieee.{neg, lt};
ghost use Rattle.modulate.specs.Step.{step_of, stepped, magic_range};

// 1.5 * 2^52: added to an f64 below 2^51 in size it rounds that to a whole number beside it, which
// then stands in two's complement in the low bits.
const MAGIC: f64 = 6_755_399_441_055_744.0;

// 2^51, the size below which MAGIC gives the whole number exactly.
const MAGIC_RANGE: f64 = 2_251_799_813_685_248.0;

// 2^63, the size from which the cast to `i64` gives an end of its range.
const CAST_END: f64 = 9_223_372_036_854_775_808.0;

// 2^32: what is left over by it are the low 32 bits.
pub(crate) const WRAP: u64 = 0x1_0000_0000;

// 1 where n lies above v, else 0: a choice between two numbers, so that no branch depends on it.
fn up(n: f64, v: f64) -> u32
    ensures { result ≡ (if lt v n then 1 else 0) }
{
    (n > v) as u32
}

// `phase_step` of v = x * k + 0.5 for |v| < 2^51. v + MAGIC rounds to a whole number beside v, whose
// low 32 bits are the wrapped step; where that rounded up, one is taken off.
fn phase_step_fast(v: f64) -> u32
    requires lower_bound { T (lt (neg magic_range) v) }
    requires upper_bound { T (lt v magic_range) }
    ensures { result ≡ stepped v }
{
    let m = v + MAGIC;
    let low = (f64::to_bits(m) % WRAP) as u32;
    std::num::wrapping_sub_u32(low, up(m - MAGIC, v))
}

// `phase_step` of any v = x * k + 0.5. The cast to `i64` ends at -2^63 and at 2^63 - 1, whose low 32
// bits are 0 and all ones. Between them the floor is cast by a function of std, since `as` is defined
// for whole numbers up to 2^53 only.
fn phase_step_wide(v: f64) -> u32
    ensures { result ≡ stepped v }
{
    if v >= CAST_END {
        return 0xffff_ffff;
    }
    if v > -CAST_END {
        let n = numbers::floor(v);
        if n < 0.0 {
            let size = std::num::truncating_f64_to_u64(-n);
            return std::num::wrapping_sub_u32(0, (size % WRAP) as u32);
        }
        return (std::num::truncating_f64_to_u64(n) % WRAP) as u32;
    }
    0
}

// C25: the phase step `floor(x * k + 0.5)` as `i64`, wrapped into `u32`. A NaN gives 0.
pub fn phase_step(x: f64, k: f64) -> u32
    ensures { result ≡ step_of x k }
{
    let v = x * k + 0.5;
    if v < MAGIC_RANGE && v > -MAGIC_RANGE {
        return phase_step_fast(v);
    }
    phase_step_wide(v)
}
