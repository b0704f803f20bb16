// The history followed by the input, over any sample type.
ghost use Rattle.std.specs.Prelude.{◌≡◌, ◌+◌, ◌<◌, ◌≤◌, length, slice_index_or};
ghost use Rattle.timing.specs.Loop.{window_at, value_at};
ghost use Rattle.timing.specs.Run.{line, hist_at};

use timing::{HIST, Hist, Sample, Window};

// T7: the samples that a run reads.
#[derive(Clone, Copy)]
pub(crate) struct Line<'a, S> {
    pub hist: Hist<S>,
    pub input: &'a [f32],
}

impl<S: Sample> Line<'_, S> {
    // How many samples the input has.
    pub fn count(&self) -> usize
        ensures { result ≡ S.form.count (length self.now.input.now) }
    {
        S::count(self.input.len())
    }

    // T7: sample j.
    fn at(&self, j: usize) -> S
        requires { j < S.form.count (length self.now.input.now) + 3 }
        ensures { result ≡ slice_index_or (line self.now.hist (S.form.samples self.now.input.now)) j S.ops.zero }
    {
        match j {
            0 => self.hist.a,
            1 => self.hist.b,
            2 => self.hist.c,
            _ => S::sample_at(self.input, j - HIST),
        }
    }

    // T7: the window of the position with integer part i: samples i - 1 to i + 2.
    // Past the history it is read directly from the input.
    fn window(&self, i: usize) -> Window<S>
        requires { (1 ≤ i) × (i ≤ S.form.count (length self.now.input.now)) }
        ensures { result ≡ window_at S.ops (line self.now.hist (S.form.samples self.now.input.now)) i }
    {
        if i <= HIST {
            Window {
                xm1: self.at(i - 1),
                x0: self.at(i),
                x1: self.at(i + 1),
                x2: self.at(i + 2),
            }
        } else {
            let j = i - HIST;
            Window {
                xm1: S::sample_at(self.input, j - 1),
                x0: S::sample_at(self.input, j),
                x1: S::sample_at(self.input, j + 1),
                x2: S::sample_at(self.input, j + 2),
            }
        }
    }

    // T8: the value at (i, mu). Inlined, so that a run keeps the line in registers.
    #[inline(always)]
    pub fn value_at(&self, i: usize, mu: f64) -> S
        requires { (1 ≤ i) × (i ≤ S.form.count (length self.now.input.now)) }
        ensures { result ≡ value_at S.ops (line self.now.hist (S.form.samples self.now.input.now)) i mu }
    {
        S::interp(self.window(i), numbers::narrow(mu))
    }

    // T20: the three samples from position k on, which become the history.
    pub fn hist_at(&self, k: usize) -> Hist<S>
        requires { k ≤ S.form.count (length self.now.input.now) }
        ensures { result ≡ hist_at S.ops (line self.now.hist (S.form.samples self.now.input.now)) k }
    {
        Hist {
            a: self.at(k),
            b: self.at(k + 1),
            c: self.at(k + 2),
        }
    }
}
