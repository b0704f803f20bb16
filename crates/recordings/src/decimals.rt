// A number in thousandths, to be written with three decimals.
ghost use Rattle.std.specs.Prelude.{◌≡◌};
ghost use Rattle.recordings.specs.Thousandths.{thousandths_of};

// The whole numbers of 64 bits lie between these, -1 and 2^64.
const BEFORE: f64 = -1.0;

const BEYOND: f64 = 18_446_744_073_709_551_616.0;

// x in thousandths, to the nearest; 0 for what is negative, no number or too large.
pub fn thousandths(x: f64) -> u64
    ensures { result ≡ thousandths_of x }
{
    let t = x * 1000.0 + 0.5;
    if t > BEFORE && t < BEYOND {
        std::num::truncating_f64_to_u64(t)
    } else {
        0
    }
}
