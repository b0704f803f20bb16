// Derotation and the phase detectors, from kernels/costas.rs and fallback/costas.rs. In f32, one
// rounding each.
ghost use Rattle.std.specs.Prelude.{◌≡◌, true};
ghost use Rattle.std.specs.Float.Ieee.{lt};
ghost use Rattle.ieee.specs.Notation.{zero₀, ◌⊗◌, ◌⊖◌};
ghost use Rattle.numbers.specs.Sign.{sign_of};
ghost use Rattle.constellations.specs.Octant.{size_of};
ghost use Rattle.detectors.specs.Detector.{derotated, detected};

use constellations::CostasConstellation;
use mix::Pair;
use values::C32;

// C13: the derotated sample y = x exp(-j phi), with q the cosine and sine of phi.
pub fn derotate(x: C32, q: Pair) -> C32
    ensures { result ≡ derotated x q }
{
    C32 {
        re: x.re * q.c + x.im * q.s,
        im: x.im * q.c - x.re * q.s,
    }
}

// sign(x) * y without the multiplication, which would lie on the dependency chain from symbol to symbol: 1 y
// is y and -1 y is -y; 0 y (zero and NaN x) is computed beside it.
fn sign_times(x: f32, y: f32) -> f32
    ensures { result ≡ sign_of x ⊗ y }
{
    let turned = if x < 0.0 { -y } else { y };
    let zero = 0.0 * y;
    if x > 0.0 {
        turned
    } else if x < 0.0 {
        turned
    } else {
        zero
    }
}

// sign(x) * y of an x that is neither zero nor NaN.
fn with_sign(x: f32, y: f32) -> f32
    requires { lt zero₀ (size_of x) ≡ true }
    ensures { result ≡ sign_of x ⊗ y }
{
    if x < 0.0 { -y } else { y }
}

// C16, QPSK: the detector sign(y.re) y.im - sign(y.im) y.re. A part that is zero or NaN has a
// branch of its own, which is predicted well: so the choice of 0 does not lie on the dependency
// chain from symbol to symbol.
fn detector4(y: C32) -> f32
    ensures { result ≡ sign_of y.re ⊗ y.im ⊖ sign_of y.im ⊗ y.re }
{
    if constellations::size(y.re) > 0.0 && constellations::size(y.im) > 0.0 {
        return with_sign(y.re, y.im) - with_sign(y.im, y.re);
    }
    sign_times(y.re, y.im) - sign_times(y.im, y.re)
}

// C16: the detector's value of y with the point d; it may not be finite. The constellation, the symbol and its point
// come one by one, as in the original (F1): a struct of them would be no plainer.
pub fn detector(constellation: CostasConstellation, y: C32, d: C32) -> f32
    ensures { result ≡ detected constellation y d }
{
    match constellation {
        CostasConstellation::Bpsk => y.re * y.im,
        CostasConstellation::Qpsk => detector4(y),
        CostasConstellation::Psk8 => y.im * d.re - y.re * d.im,
    }
}
