// The exported functions of symbol timing recovery of complex samples, real part first in slices of f32.
ghost use Rattle.std.specs.Prelude.{◌≡◌};
ghost use Rattle.timing.specs.Sample.{complex as complexOps};
ghost use Rattle.timing.specs.Setup.{tuned};
ghost use Rattle.timing.specs.Run.{fresh, opened_by, called_complex};
ghost use Rattle.plain.specs.Codes.{detector_of};
ghost use Rattle.plain_timing.specs.Params.{params_of, readings_of};
ghost use Rattle.plain_timing.specs.Complex.{sync_of, record_of, set_up_of, outcome_of, Given};

use plain_timing::complex::{ComplexSetUp, ComplexTiming, run};
use plain_timing::{TimingReadings, TimingValues};
use values::Counts;

// L3: a fresh state, or the lowest number of what is wrong with the values, whose ranges
// stand at `TimingValues`.
pub fn trr_complex_set_up(v: TimingValues) -> ComplexSetUp
    ensures outcome { result ≡ set_up_of (opened_by complexOps (tuned v.sps (detector_of v.ted) v.loop_bw v.damping v.max_deviation v.ted_gain)) }
    ensures given { result.number ≡ 0 → Given result.state }
{
    complex_sync::set_up(v.into()).into()
}

// L5: the fresh state of the same parameters (T6).
pub fn trr_complex_reset(x: ComplexTiming) -> ComplexTiming
    requires { Given x }
    ensures state { result ≡ record_of (fresh complexOps (params_of x.params)) }
    ensures given { Given result }
{
    complex_sync::reset(x.into()).into()
}

// L5: the readings of the state (T21).
pub fn trr_complex_readings(x: ComplexTiming) -> TimingReadings
    ensures { result ≡ readings_of x.params x.track.clock }
{
    plain_timing::readings(x.params, x.track.clock)
}

// L2: one call over a record that the caller lends, and that the call replaces by the new one.
pub fn trr_complex_run(x: &mut ComplexTiming, input: &[f32], output: &mut [f32]) -> Counts
    requires { Given x.old }
    ensures outcome { outcome_of result x.new output.new ≡ called_complex (sync_of x.old) input.now output.old }
    ensures given { Given x.new }
{
    let ran = run(*x, input, output);
    *x = ran.state;
    ran.counts
}
