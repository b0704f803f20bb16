// The samples between two symbols: a raised-cosine transition, turned by the carrier.
ghost use Rattle.std.specs.Prelude.{◌≡◌, ◌<◌};
ghost use Rattle.make_recording.specs.Wave.{on_the_way, turned_by, sample_at, four_of};

use crate::source::{PHASE_STEP, Source};
use mix::Pair;
use values::C32;

// From symbol to symbol the transition's cosine goes half a turn, an eighth of a turn a sample, in
// units of 2^-32 turn. The first sample stands 0.3 of a sample behind the last symbol's instant.
const FIRST: u32 = 0x999_999a;

const EIGHTH: u32 = 0x2000_0000;

// From a to b, where the cosine has come down to c.
fn on_the_way(a: f32, b: f32, c: f32) -> f32
    ensures { result ≡ on_the_way a b c }
{
    a + (b - a) * (0.5 - 0.5 * c)
}

// x turned on by the angle of the cosine and the sine.
fn turned_by(x: C32, q: Pair) -> C32
    ensures { result ≡ turned_by x q }
{
    C32 {
        re: x.re * q.c - x.im * q.s,
        im: x.re * q.s + x.im * q.c,
    }
}

// Sample j of the four that lead to the next symbol.
fn sample(table: &[f32; 4097], s: Source, j: u32) -> C32
    requires { j < 4 }
    ensures { result ≡ sample_at table.now s j }
{
    let way = mix::interp_f32_pair(table, FIRST + j * EIGHTH);
    let x = C32 {
        re: on_the_way(s.from.re, s.to.re, way.c),
        im: on_the_way(s.from.im, s.to.im, way.c),
    };
    let phase = s.phase.wrapping_add(j * PHASE_STEP);
    turned_by(x, mix::interp_f32_pair(table, phase))
}

// The four samples that lead to the next symbol, real part first.
pub(crate) fn samples_of(table: &[f32; 4097], s: Source) -> [f32; 8]
    ensures { result ≡ four_of table.now s }
{
    let a = sample(table, s, 0);
    let b = sample(table, s, 1);
    let c = sample(table, s, 2);
    let d = sample(table, s, 3);
    [a.re, a.im, b.re, b.im, c.re, c.im, d.re, d.im]
}
