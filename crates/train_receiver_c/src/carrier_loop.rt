// The C names of `train_receiver::carrier_loop`, under the same contracts.
ghost use Rattle.std.specs.Prelude.{◌≡◌};
ghost use Rattle.carrier.specs.State.{opened, fresh, phase_set, frequency_set};
ghost use Rattle.carrier.specs.Run.{called};
ghost use Rattle.plain.specs.Codes.{constellation_of};
ghost use Rattle.plain_carrier.specs.Carrier.{state_of, record_of, set_up_of, outcome_of, Given};
ghost use Rattle.train_receiver.specs.Readings.{carrier_readings};

use plain_carrier::{Carrier, CarrierSetUp};
use receiver::CarrierValues;
use train_receiver::CarrierReadings;

// L3: a fresh state, or the lowest number of what is wrong with the values, whose ranges
// stand at `CarrierValues`.
#[unsafe(no_mangle)]
pub extern "C" fn trr_carrier_set_up(constellation: u32, v: CarrierValues) -> CarrierSetUp
    ensures outcome { result ≡ set_up_of (opened (constellation_of constellation) v.loop_bw v.damping v.max_offset) }
    ensures given { result.number ≡ 0 → Given result.state }
{
    train_receiver::trr_carrier_set_up(constellation, v)
}

// L5: the state after construction (C7). The parameters are kept.
#[unsafe(no_mangle)]
pub extern "C" fn trr_carrier_reset(x: Carrier) -> Carrier
    requires { Given x }
    ensures state { result ≡ record_of (fresh (constellation_of x.constellation) x.params) }
    ensures given { Given result }
{
    train_receiver::trr_carrier_reset(x)
}

// L5: sets the phase (C8), in units of 2^-32 turn.
#[unsafe(no_mangle)]
pub extern "C" fn trr_carrier_set_phase(x: Carrier, phase: u32) -> Carrier
    requires { Given x }
    ensures state { result ≡ record_of (phase_set (state_of x) phase) }
    ensures given { Given result }
{
    train_receiver::trr_carrier_set_phase(x, phase)
}

// L5: sets the frequency integrator (C9), in cycles per symbol.
#[unsafe(no_mangle)]
pub extern "C" fn trr_carrier_set_frequency(x: Carrier, freq: f64) -> Carrier
    requires { Given x }
    ensures state { result ≡ record_of (frequency_set (state_of x) freq) }
    ensures given { Given result }
{
    train_receiver::trr_carrier_set_frequency(x, freq)
}

// L5: the readings of the state (C21).
#[unsafe(no_mangle)]
pub extern "C" fn trr_carrier_readings(x: Carrier) -> CarrierReadings
    ensures { result ≡ carrier_readings x }
{
    train_receiver::trr_carrier_readings(x)
}

// L2: one call over a record that the caller lends, and that the call replaces by the new one. It answers a
// number and no counts, since every input sample gives an output sample.
#[unsafe(no_mangle)]
pub extern "C" fn trr_carrier_run(x: &mut Carrier, input: &[f32], output: &mut [f32]) -> u32
    requires { Given x.old }
    ensures outcome { outcome_of result x.new output.new ≡ called (state_of x.old) input.now output.old }
    ensures given { Given x.new }
{
    train_receiver::trr_carrier_run(x, input, output)
}
