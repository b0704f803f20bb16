// The exported functions of symbol timing recovery of real samples.
ghost use Rattle.std.specs.Prelude.{◌≡◌};
ghost use Rattle.timing.specs.Sample.{real as realOps};
ghost use Rattle.timing.specs.Setup.{tuned};
ghost use Rattle.timing.specs.Run.{fresh, opened_by, called_real};
ghost use Rattle.real_sync.specs.Views.{outcome_of};
ghost use Rattle.plain.specs.Codes.{detector_of};
ghost use Rattle.plain_timing.specs.Params.{params_of, readings_of};
ghost use Rattle.plain_timing.specs.Real.{sync_of, record_of, set_up_of, Given};

use plain_timing::real::{RealSetUp, RealTiming, run};
use plain_timing::{TimingReadings, TimingValues};
use values::Progress;

// L3: a fresh state, or the lowest number of what is wrong with the values, whose ranges
// stand at `TimingValues`.
pub fn trr_real_set_up(v: TimingValues) -> RealSetUp
    ensures outcome { result ≡ set_up_of (opened_by realOps (tuned v.sps (detector_of v.ted) v.loop_bw v.damping v.max_deviation v.ted_gain)) }
    ensures given { result.number ≡ 0 → Given result.state }
{
    real_sync::set_up(v.into()).into()
}

// L5: the fresh state of the same parameters (T6).
pub fn trr_real_reset(x: RealTiming) -> RealTiming
    requires { Given x }
    ensures state { result ≡ record_of (fresh realOps (params_of x.params)) }
    ensures given { Given result }
{
    real_sync::reset(x.into()).into()
}

// L5: the readings of the state (T21).
pub fn trr_real_readings(x: RealTiming) -> TimingReadings
    ensures { result ≡ readings_of x.params x.track.clock }
{
    plain_timing::readings(x.params, x.track.clock)
}

// L2: one call over a record that the caller lends, and that the call replaces by the new one.
// It is never refused (T1).
pub fn trr_real_run(x: &mut RealTiming, input: &[f32], output: &mut [f32]) -> Progress
    requires { Given x.old }
    ensures outcome { outcome_of result (sync_of x.new) output.new ≡ called_real (sync_of x.old) input.now output.old }
    ensures given { Given x.new }
{
    let ran = run(*x, input, output);
    *x = ran.state;
    ran.counts
}
