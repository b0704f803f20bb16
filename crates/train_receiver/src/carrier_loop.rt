// The exported functions of the carrier loop.
ghost use Rattle.std.specs.Prelude.{◌≡◌};
ghost use Rattle.carrier.specs.State.{opened, fresh, phase_set, frequency_set};
ghost use Rattle.carrier.specs.Run.{called};
ghost use Rattle.plain.specs.Codes.{constellation_of};
ghost use Rattle.plain_carrier.specs.Carrier.{state_of, record_of, set_up_of, outcome_of, Given};
ghost use Rattle.train_receiver.specs.Readings.{carrier_readings};

use carrier::CostasState;
use plain_carrier::{Carrier, CarrierSetUp, run};
use receiver::CarrierValues;

// L3: a fresh state, or the lowest number of what is wrong with the values, whose ranges
// stand at `CarrierValues`.
pub fn trr_carrier_set_up(constellation: u32, v: CarrierValues) -> CarrierSetUp
    ensures outcome { result ≡ set_up_of (opened (constellation_of constellation) v.loop_bw v.damping v.max_offset) }
    ensures given { result.number ≡ 0 → Given result.state }
{
    carrier::set_up(plain::constellation(constellation), v).into()
}

// L5: the state after construction (C7). The parameters are kept.
pub fn trr_carrier_reset(x: Carrier) -> Carrier
    requires { Given x }
    ensures state { result ≡ record_of (fresh (constellation_of x.constellation) x.params) }
    ensures given { Given result }
{
    carrier::reset(x.into()).into()
}

// L5: sets the phase (C8), in units of 2^-32 turn.
pub fn trr_carrier_set_phase(x: Carrier, phase: u32) -> Carrier
    requires { Given x }
    ensures state { result ≡ record_of (phase_set (state_of x) phase) }
    ensures given { Given result }
{
    carrier::set_phase(x.into(), phase).into()
}

// L5: sets the frequency integrator (C9), in cycles per symbol.
pub fn trr_carrier_set_frequency(x: Carrier, freq: f64) -> Carrier
    requires { Given x }
    ensures state { result ≡ record_of (frequency_set (state_of x) freq) }
    ensures given { Given result }
{
    carrier::set_frequency(x.into(), freq).into()
}

// ---- Readings

// The readings of a carrier state.
#[repr(C)]
#[derive(Clone, Copy)]
pub struct CarrierReadings {
    // 0 BPSK, 1 QPSK, 2 8-PSK.
    pub constellation: u32,
    // What it was set up with.
    pub values: CarrierValues,
    // The frequency integrator in cycles per symbol: the estimated carrier offset.
    pub frequency: f64,
    // The phase before the next symbol, in units of 2^-32 turn.
    pub phase: u32,
    // The smoothed lock measure.
    pub lock_level: f32,
    // Whether the lock detector reports lock.
    pub locked: bool,
}

// L5: the readings of the state (C21).
pub fn trr_carrier_readings(x: Carrier) -> CarrierReadings
    ensures { result ≡ carrier_readings x }
{
    let values = CarrierValues {
        loop_bw: x.params.loop_bw,
        damping: x.params.damping,
        max_offset: x.params.max_offset,
    };
    let s = CostasState::from(x);
    CarrierReadings {
        constellation: x.constellation,
        values: values,
        frequency: s.frequency(),
        phase: s.phase(),
        lock_level: s.lock_level(),
        locked: s.locked(),
    }
}

// ---- A call

// L2: one call over a record that the caller lends, and that the call replaces by the new one. It answers a
// number and no counts, since every input sample gives an output sample.
pub fn trr_carrier_run(x: &mut Carrier, input: &[f32], output: &mut [f32]) -> u32
    requires { Given x.old }
    ensures outcome { outcome_of result x.new output.new ≡ called (state_of x.old) input.now output.old }
    ensures given { Given x.new }
{
    let ran = run(*x, input, output);
    *x = ran.state;
    carrier::number_of(ran.answer)
}
