// The arithmetic of a real sample, which is one f32 of a slice.
ghost use Rattle.std.specs.Prelude.{◌≡◌, slice_index_or};
ghost use Rattle.std.specs.Float.{nan};
ghost use Rattle.timing.specs.Sample.{real};
ghost use Rattle.timing.specs.Form.{onefold};
ghost use Rattle.timing.specs.FormLaws.{onefold_laws};

use crate::part::interp1;
use crate::sample::{Sample, Window};

// T8, F5: the value mu after w[1], in a window of four samples.
pub fn interp(w: [f32; 4], mu: f32) -> f32
    ensures { result ≡ real.interp (slice_index_or w 0 nan) (slice_index_or w 1 nan) (slice_index_or w 2 nan) (slice_index_or w 3 nan) mu }
{
    interp1(w[0], w[1], w[2], w[3], mu)
}

impl Sample for f32 {
    ghost ops = { real };

    ghost form = { onefold };

    fn zero() -> f32 {
        0.0
    }

    fn interp(w: Window<f32>, mu: f32) -> f32
        ensures { result ≡ real.interp w.xm1 w.x0 w.x1 w.x2 mu }
    {
        interp([w.xm1, w.x0, w.x1, w.x2], mu)
    }

    // (y_prev - y) m
    fn gardner(y_prev: f32, y: f32, m: f32) -> f32 {
        (y_prev - y) * m
    }

    // sign(y)
    fn decide(y: f32) -> f32 {
        numbers::sign(y)
    }

    // d_prev y - d y_prev
    fn mm(d_prev: f32, y: f32, d: f32, y_prev: f32) -> f32 {
        d_prev * y - d * y_prev
    }

    fn count(n: usize) -> usize {
        n
    }

    fn sample_at(input: &[f32], k: usize) -> f32 {
        input[k]
    }

    fn store_sample(output: &mut [f32], k: usize, y: f32) {
        output[k] = y;
    }

    ghost laws = { onefold_laws };
}
