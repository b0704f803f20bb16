// The state of a timing loop over any sample type, and its readings, from kernels/symbol_sync.rs.
ghost use Rattle.std.specs.Prelude.{◌≡◌};
ghost use Rattle.timing.specs.Clock.{next_strobe};

use crate::clock::Clock;
use crate::params::{Params, Ted};

// T5: the last three samples, oldest first; index 0 of the positions.
#[derive(Clone, Copy)]
pub struct Hist<S> {
    pub a: S,
    pub b: S,
    pub c: S,
}

// T5: what a run changes while it loops.
#[derive(Clone, Copy)]
pub struct Track<S> {
    pub clock: Clock,
    pub y_prev: S,
    pub d_prev: S,
    // The midpoint sample (middle) of the next strobe, valid when mid_ready.
    pub mid: S,
    pub mid_ready: bool,
    // False until the first strobe, which uses e = 0.
    pub started: bool,
}

// What holds of a state that was given (A9, `Given`) is a clause of each call and no invariant of the type: readings and
// conversions take any state, and an invariant would ask more of their callers.
// T5, F3: the state of the loop: the values of the set-up, the history, and what a run changes.
#[derive(Clone, Copy)]
pub struct SymbolSyncState<S> {
    pub params: Params,
    pub hist: Hist<S>,
    pub track: Track<S>,
}

// ---- Readings

impl<S: Copy> SymbolSyncState<S> {
    // T21: the current estimate of the samples per symbol (pace).
    pub fn sps_estimate(self) -> f64
        ensures { result ≡ self.track.clock.omega }
    {
        self.track.clock.omega
    }

    // T21: the position of the next strobe in input samples, counted from the first sample of the next
    // call's input. It is negative while the strobe lies in the history.
    pub fn next_strobe(self) -> f64
        ensures { result ≡ next_strobe self.track.clock }
    {
        crate::clock::next_strobe(self.track.clock)
    }

    // T2: the nominal samples per symbol.
    pub fn sps(self) -> f64
        ensures { result ≡ self.params.sps }
    {
        self.params.sps
    }

    // T2: the timing error detector.
    pub fn ted(self) -> Ted
        ensures { result ≡ self.params.ted }
    {
        self.params.ted
    }

    // T2: the loop bandwidth, normalized to the symbol rate.
    pub fn loop_bw(self) -> f64
        ensures { result ≡ self.params.loop_bw }
    {
        self.params.loop_bw
    }

    // T2: the damping of the loop.
    pub fn damping(self) -> f64
        ensures { result ≡ self.params.damping }
    {
        self.params.damping
    }

    // T2: the largest deviation of omega from sps, as a fraction of sps.
    pub fn max_deviation(self) -> f64
        ensures { result ≡ self.params.max_deviation }
    {
        self.params.max_deviation
    }

    // T2: the detector gain that the loop gains are divided by.
    pub fn ted_gain(self) -> f64
        ensures { result ≡ self.params.ted_gain }
    {
        self.params.ted_gain
    }
}
