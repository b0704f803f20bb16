// The octant of a sample and its 8-PSK point, from reference/costas.rs.
ghost use Rattle.std.specs.Prelude.{◌≡◌, ◌&&◌, cond, ◌+◌, ◌<◌};
ghost use Rattle.constellations.specs.Octant.{size_of, octant_of, point_of, decision_of};

use crate::kinds::CostasConstellation;
use values::C32;

// cos(pi / 8) and sin(pi / 8), each rounded once to f32: the parts of the 8-PSK points.
const C8: f32 = 0.9238795;

const S8: f32 = 0.38268343;

// C15: the points exp(j (2k + 1) pi / 8).
const POINTS8: [C32; 8] = [
    C32 { re: C8, im: S8 },
    C32 { re: S8, im: C8 },
    C32 { re: -S8, im: C8 },
    C32 { re: -C8, im: S8 },
    C32 { re: -C8, im: -S8 },
    C32 { re: -S8, im: -C8 },
    C32 { re: S8, im: -C8 },
    C32 { re: C8, im: -S8 },
];

// |x| but for a zero, which keeps its sign: what is compared is the number.
pub fn size(x: f32) -> f32
    ensures { result ≡ size_of x }
{
    if x < 0.0 { -x } else { x }
}

// An octant of the quadrant whose two tests are a and b, the first one (k) if `nearer`; 0 if the sample lies
// in another quadrant. A choice between numbers and no branch: symbols come in no order, so that a branch on
// one could not be predicted.
fn half(a: bool, b: bool, nearer: bool, k: usize) -> usize
    requires { k < 8 }
    ensures { result ≡ cond (a && b) (cond nearer k (k + 1)) 0 }
{
    if a && b {
        if nearer { k } else { k + 1 }
    } else {
        0
    }
}

// C14: the index k of the octant [k pi / 4, (k + 1) pi / 4) of y: the quadrant from the signs, then the
// comparison of the magnitudes. Zero and NaN give 0. A sample lies in one quadrant at most, so that the
// sum has one term at most.
pub fn octant(y: C32) -> usize
    ensures { result ≡ octant_of y }
{
    let ar = size(y.re);
    let ai = size(y.im);
    let wide = ar > ai;
    let tall = ai > ar;
    let q0 = half(y.re > 0.0, y.im >= 0.0, wide, 0);
    let q1 = half(y.re <= 0.0, y.im > 0.0, tall, 2);
    let q2 = half(y.re < 0.0, y.im <= 0.0, wide, 4);
    let q3 = half(y.re >= 0.0, y.im < 0.0, tall, 6);
    (q0 + q1) + (q2 + q3)
}

// The point of the octant of y.
fn point8(y: C32) -> C32
    ensures { result ≡ point_of y }
{
    let k = octant(y);
    POINTS8[k]
}

// The point that y is compared with: that of its octant for 8-PSK (C16). The others need none and take zero.
pub fn decide(constellation: CostasConstellation, y: C32) -> C32
    ensures { result ≡ decision_of constellation y }
{
    match constellation {
        CostasConstellation::Bpsk => C32 { re: 0.0, im: 0.0 },
        CostasConstellation::Qpsk => C32 { re: 0.0, im: 0.0 },
        CostasConstellation::Psk8 => point8(y),
    }
}
