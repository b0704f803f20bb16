// The number of a symbol, or none.
ghost use Rattle.std.specs.Prelude.{◌≡◌};
ghost use Rattle.symbol_numbers.specs.Symbol.{silent, any_nan, no_symbol, bpsk_of, sector_of, symbol_of};

use constellations::CostasConstellation;
use values::C32;

// Whether both parts are zero, of either sign.
pub fn is_silent(y: C32) -> bool
    ensures { result ≡ silent y }
{
    y.re == 0.0 && y.im == 0.0
}

// Whether a part is NaN.
fn has_nan(y: C32) -> bool
    ensures { result ≡ any_nan y }
{
    y.re != y.re || y.im != y.im
}

// R16: whether a sample has no number, under any constellation.
pub fn is_none(y: C32) -> bool
    ensures { result ≡ no_symbol y }
{
    is_silent(y) || has_nan(y)
}

// R11: 1 to the left of the imaginary axis and on its lower half.
fn bpsk_number(y: C32) -> usize
    ensures { result ≡ bpsk_of y }
{
    if y.re < 0.0 {
        return 1;
    }
    if y.re == 0.0 {
        if y.im < 0.0 {
            return 1;
        }
    }
    0
}

// The half plane under BPSK (R11), the quadrant under QPSK (R13), the octant under 8-PSK (R12). Of a sample
// that has no number it says 0 or 1: R16 comes first.
fn sector(constellation: CostasConstellation, y: C32) -> usize
    ensures { result ≡ sector_of constellation y }
{
    match constellation {
        CostasConstellation::Bpsk => bpsk_number(y),
        CostasConstellation::Qpsk => constellations::octant(y) / 2,
        CostasConstellation::Psk8 => constellations::octant(y),
    }
}

// R16: the number of an output sample, or none.
pub fn symbol_number(constellation: CostasConstellation, y: C32) -> Option<usize>
    ensures { result ≡ symbol_of constellation y }
{
    if is_none(y) {
        return None;
    }
    Some(sector(constellation, y))
}
