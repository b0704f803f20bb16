// What both timing loops share: the values of a set-up, the parameters of a state, and the readings,
// which depend on no sample.
ghost use Rattle.std.specs.Prelude.{◌≡◌};
ghost use Rattle.plain_timing.specs.Params.{values_of, params_of, params_record, readings_of};

use plain::{detector, detector_code};
use timing::{Clock, Params};

// T2: what a timing loop is set up with.
#[repr(C)]
#[derive(Clone, Copy)]
pub struct TimingValues {
    // Samples per symbol, 2 to 1,000,000.
    pub sps: f64,
    // 0 Gardner, 1 Mueller-Müller.
    pub ted: u32,
    // Loop bandwidth, normalized to the symbol rate, 0.0001 to 0.1.
    pub loop_bw: f64,
    // 0.1 to 4 (1/√2 is usual).
    pub damping: f64,
    // Largest deviation of the spacing from sps, as a fraction of sps, 0 to 0.05.
    pub max_deviation: f64,
    // Slope of the detector per symbol of offset, above 0.
    pub ted_gain: f64,
}

// The parameters of a timing state.
#[repr(C)]
#[derive(Clone, Copy)]
pub struct TimingParams {
    pub sps: f64,
    // 0 Gardner, 1 Mueller-Müller.
    pub ted: u32,
    pub loop_bw: f64,
    pub damping: f64,
    pub max_deviation: f64,
    pub ted_gain: f64,
    // The gains and the limit of the integrator, in samples.
    pub kp: f64,
    pub ki: f64,
    pub lim: f64,
}

// T2: the values that a record stands for.
impl From<TimingValues> for timing::TimingValues {
    ghost from_gives = { λ v t. t ≡ values_of v };

    fn from(v: TimingValues) -> timing::TimingValues {
        timing::TimingValues {
            sps: v.sps,
            ted: detector(v.ted),
            loop_bw: v.loop_bw,
            damping: v.damping,
            max_deviation: v.max_deviation,
            ted_gain: v.ted_gain,
        }
    }
}

// L1: the parameters that a record stands for.
impl From<TimingParams> for Params {
    ghost from_gives = { λ p q. q ≡ params_of p };

    fn from(p: TimingParams) -> Params {
        Params {
            sps: p.sps,
            ted: detector(p.ted),
            loop_bw: p.loop_bw,
            damping: p.damping,
            max_deviation: p.max_deviation,
            ted_gain: p.ted_gain,
            kp: p.kp,
            ki: p.ki,
            lim: p.lim,
        }
    }
}

// L1: the record of parameters.
impl From<Params> for TimingParams {
    ghost from_gives = { λ p q. q ≡ params_record p };

    fn from(p: Params) -> TimingParams {
        TimingParams {
            sps: p.sps,
            ted: detector_code(p.ted),
            loop_bw: p.loop_bw,
            damping: p.damping,
            max_deviation: p.max_deviation,
            ted_gain: p.ted_gain,
            kp: p.kp,
            ki: p.ki,
            lim: p.lim,
        }
    }
}

// ---- Readings

// The readings of a timing state.
#[repr(C)]
#[derive(Clone, Copy)]
pub struct TimingReadings {
    // What it was set up with.
    pub values: TimingValues,
    // The position of the next strobe in input samples, counted from the first sample of the next call's
    // input. It is negative while the strobe lies in the history.
    pub next_strobe: f64,
    // The current estimate of the samples per symbol.
    pub sps_estimate: f64,
}

// T21: the readings, which depend on no sample.
pub fn readings(p: TimingParams, c: Clock) -> TimingReadings
    ensures { result ≡ readings_of p c }
{
    let values = TimingValues {
        sps: p.sps,
        ted: p.ted,
        loop_bw: p.loop_bw,
        damping: p.damping,
        max_deviation: p.max_deviation,
        ted_gain: p.ted_gain,
    };
    TimingReadings {
        values: values,
        next_strobe: timing::next_strobe(c),
        sps_estimate: c.omega,
    }
}
