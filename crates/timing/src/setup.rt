// The checks of a set-up, its gains and its limit, in f64, in the original's order and brackets.
ghost use Rattle.std.specs.Prelude.{◌≡◌};
ghost use Rattle.timing.specs.Gains.{kp_of, ki_of};
ghost use Rattle.timing.specs.Setup.{params_with, tuned};
ghost use Rattle.timing.specs.Given.{TuningGiven};

use crate::params::{Params, TimingValues};
use gains::Gains;
use values::Refusal;

// Samples per symbol.
const MIN_SPS: f64 = 2.0;

const MAX_SPS: f64 = 1_000_000.0;

// Loop bandwidth, normalized to the symbol rate.
const MIN_LOOP_BW: f64 = 0.0001;

const MAX_LOOP_BW: f64 = 0.1;

const MIN_DAMPING: f64 = 0.1;

const MAX_DAMPING: f64 = 4.0;

// Largest deviation of omega from sps, as a fraction of sps.
const MIN_DEVIATION: f64 = 0.0;

const MAX_DEVIATION: f64 = 0.05;

// T3: the gains. The detector's error is a timing error in symbols (ted_gain is the detector's slope
// per symbol); the factor sps makes the corrections samples.
fn gains_of(v: TimingValues) -> Gains<f64>
    ensures { result ≡ record { kp = kp_of v.sps v.loop_bw v.damping v.ted_gain; ki = ki_of v.sps v.loop_bw v.damping v.ted_gain } }
{
    let q = gains::inner_gains(v.loop_bw, v.damping);
    Gains {
        kp: (q.kp / v.ted_gain) * v.sps,
        ki: (q.ki / v.ted_gain) * v.sps,
    }
}

// The parameters of a set-up with these gains.
fn accepted(v: TimingValues, g: Gains<f64>) -> Params
    ensures { result ≡ params_with v.sps v.ted v.loop_bw v.damping v.max_deviation v.ted_gain g.kp g.ki }
{
    Params {
        sps: v.sps,
        ted: v.ted,
        loop_bw: v.loop_bw,
        damping: v.damping,
        max_deviation: v.max_deviation,
        ted_gain: v.ted_gain,
        kp: g.kp,
        ki: g.ki,
        lim: v.max_deviation * v.sps,
    }
}

// T4: the parameters of a set-up, or the lowest number of what is wrong with it; `TimingValues` has the ranges.
// Both gains must be finite.
pub fn tune(v: TimingValues) -> Result<Params, Refusal>
    ensures outcome { result ≡ tuned v.sps v.ted v.loop_bw v.damping v.max_deviation v.ted_gain }
    ensures given { TuningGiven result }
{
    if !checks::within(MIN_SPS, v.sps, MAX_SPS) {
        return Err(Refusal::Pace);
    }
    if !checks::within(MIN_LOOP_BW, v.loop_bw, MAX_LOOP_BW) {
        return Err(Refusal::Width);
    }
    if !checks::within(MIN_DAMPING, v.damping, MAX_DAMPING) {
        return Err(Refusal::Damping);
    }
    if !checks::within(MIN_DEVIATION, v.max_deviation, MAX_DEVIATION) {
        return Err(Refusal::Pull);
    }
    if !checks::above_zero(v.ted_gain) {
        return Err(Refusal::Slope);
    }
    let g = gains_of(v);
    if !(numbers::is_finite(g.kp) && numbers::is_finite(g.ki)) {
        return Err(Refusal::Gains);
    }
    let p = accepted(v, g);
    Ok(p)
}
