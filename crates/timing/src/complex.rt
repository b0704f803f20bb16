// The arithmetic of a complex sample, which is two f32 of a slice, real part first.
ghost use Rattle.std.specs.Prelude.{◌≡◌, slice_index_or};
ghost use Rattle.timing.specs.Sample.{complex, blank};
ghost use Rattle.timing.specs.Form.{twofold};
ghost use Rattle.timing.specs.FormLaws.{twofold_laws};

use crate::part::interp1;
use crate::sample::{Sample, Window};
use values::C32;

// T8, F5: the value mu after w[1], in a window of four samples. Both parts are interpolated.
pub fn interp(w: [C32; 4], mu: f32) -> C32
    ensures { result ≡ complex.interp (slice_index_or w 0 blank) (slice_index_or w 1 blank) (slice_index_or w 2 blank) (slice_index_or w 3 blank) mu }
{
    let re = interp1(w[0].re, w[1].re, w[2].re, w[3].re, mu);
    let im = interp1(w[0].im, w[1].im, w[2].im, w[3].im, mu);
    C32 { re: re, im: im }
}

impl Sample for C32 {
    ghost ops = { complex };

    ghost form = { twofold };

    fn zero() -> C32 {
        C32 { re: 0.0, im: 0.0 }
    }

    fn interp(w: Window<C32>, mu: f32) -> C32
        ensures { result ≡ complex.interp w.xm1 w.x0 w.x1 w.x2 mu }
    {
        interp([w.xm1, w.x0, w.x1, w.x2], mu)
    }

    // re((y_prev - y) conj(m))
    fn gardner(y_prev: C32, y: C32, m: C32) -> f32 {
        (y_prev.re - y.re) * m.re + (y_prev.im - y.im) * m.im
    }

    // sign(y) of each part
    fn decide(y: C32) -> C32 {
        let re = numbers::sign(y.re);
        let im = numbers::sign(y.im);
        C32 { re: re, im: im }
    }

    // re(conj(d_prev) y - conj(d) y_prev)
    fn mm(d_prev: C32, y: C32, d: C32, y_prev: C32) -> f32 {
        (d_prev.re * y.re + d_prev.im * y.im) - (d.re * y_prev.re + d.im * y_prev.im)
    }

    fn count(n: usize) -> usize {
        n / 2
    }

    fn sample_at(input: &[f32], k: usize) -> C32 {
        values::sample_at(input, k)
    }

    fn store_sample(output: &mut [f32], k: usize, y: C32) {
        values::store_sample(output, k, y);
    }

    ghost laws = { twofold_laws };
}
