// The clock, which no sample enters: the next strobe's position, the spacing and the integrator.
ghost use Rattle.std.specs.Prelude.{◌≡◌};
ghost use Rattle.timing.specs.Clock.{next_strobe, settled};

// How many samples the history has, as a count and as a distance.
pub const HIST: usize = 3;

const HIST_SAMPLES: f64 = 3.0;

#[repr(C)]
#[derive(Clone, Copy)]
pub struct Clock {
    // Integer part of the next strobe's position in the history followed by the input.
    pub i: usize,
    // Its fraction, 0 <= mu < 1.
    pub mu: f64,
    // The spacing of the strobes, in samples.
    pub omega: f64,
    // The integrator of the loop filter, in samples.
    pub integ: f64,
}

// T21: the position of the next strobe in input samples, counted from the first sample of the next
// call's input. It is negative while the strobe lies in the history.
pub fn next_strobe(c: Clock) -> f64
    ensures { result ≡ next_strobe c }
{
    (std::num::nearest_u64_to_f64(c.i as u64) - HIST_SAMPLES) + c.mu
}

// T13: a detector's error as the loop takes it: 0 until the loop has started, and in the place
// of an error that is not finite.
pub fn settle(started: bool, e: f32) -> f64
    ensures { result ≡ settled started e }
{
    if started && numbers::is_finite(e) {
        return e as f64;
    }
    0.0
}
