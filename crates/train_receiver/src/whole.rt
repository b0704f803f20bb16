// The exported functions of the receiver: both loops and a symbol count.
ghost use Rattle.std.specs.Prelude.{◌≡◌};
ghost use Rattle.receiver.specs.Record.{unnamed, opened, restarted, phase_set};
ghost use Rattle.sample_calls.specs.Call.{called};
ghost use Rattle.symbol_numbers.specs.Symbol.{symbol_of};
ghost use Rattle.plain.specs.Codes.{constellation_of, symbol_code};
ghost use Rattle.plain_receiver.specs.Receiver.{values_of, receiver_of, record_of, set_up_of, outcome_of, Given};
ghost use Rattle.train_receiver.specs.Readings.{receiver_readings};

use crate::carrier_loop::{CarrierReadings, trr_carrier_readings};
use crate::complex_timing::trr_complex_readings;
use plain_receiver::{Receiver, ReceiverSetUp, run};
use plain_timing::{TimingReadings, TimingValues};
use receiver::CarrierValues;
use values::{C32, Counts};

// L3: a fresh receiver, or the number of what is wrong, with timing's values checked before the carrier's
// (R4). The ranges stand at `TimingValues` and `CarrierValues`.
pub fn trr_receiver_set_up(constellation: u32, t: TimingValues, c: CarrierValues) -> ReceiverSetUp
    ensures outcome { result ≡ set_up_of (opened (constellation_of constellation) (values_of t) c) }
    ensures given { result.number ≡ 0 → Given result.receiver }
{
    receiver::set_up(plain::constellation(constellation), t.into(), c).into()
}

// L3: a set-up for BPSK, where no constellation is named (R3). The ranges stand at
// `TimingValues` and `CarrierValues`.
pub fn trr_receiver_set_up_unnamed(t: TimingValues, c: CarrierValues) -> ReceiverSetUp
    ensures outcome { result ≡ set_up_of (opened unnamed (values_of t) c) }
    ensures given { result.number ≡ 0 → Given result.receiver }
{
    receiver::set_up_unnamed(t.into(), c).into()
}

// L5: both loops as after the set-up, and a count of 0 (R7).
pub fn trr_receiver_reset(x: Receiver) -> Receiver
    requires { Given x }
    ensures state { result ≡ record_of (restarted (receiver_of x)) }
    ensures given { Given result }
{
    receiver::reset(x.into()).into()
}

// L5: sets the carrier's phase (R8), in units of 2^-32 turn.
pub fn trr_receiver_set_phase(x: Receiver, phase: u32) -> Receiver
    requires { Given x }
    ensures state { result ≡ record_of (phase_set (receiver_of x) phase) }
    ensures given { Given result }
{
    receiver::set_phase(x.into(), phase).into()
}

// ---- Readings

// The readings of a receiver.
#[repr(C)]
#[derive(Clone, Copy)]
pub struct ReceiverReadings {
    pub timing: TimingReadings,
    pub carrier: CarrierReadings,
    // How many symbols were produced since the set-up or the last reset, up to 18,446,744,073,709,551,615 (R18).
    pub count: u64,
}

// L5: the readings of the receiver (R9).
pub fn trr_receiver_readings(x: Receiver) -> ReceiverReadings
    ensures { result ≡ receiver_readings x }
{
    ReceiverReadings {
        timing: trr_complex_readings(x.timing),
        carrier: trr_carrier_readings(x.carrier),
        count: x.count,
    }
}

// ---- A call

// L2: one call over a record that the caller lends, and that the call replaces by the new one.
pub fn trr_receiver_receive(
    x: &mut Receiver,
    input: &[f32],
    strobes: &mut [f32],
    output: &mut [f32],
) -> Counts
    requires { Given x.old }
    ensures outcome { outcome_of result x.new strobes.new output.new ≡ called (receiver_of x.old) input.now strobes.old output.old }
    ensures given { Given x.new }
{
    let ran = run(*x, input, strobes, output);
    *x = ran.receiver;
    ran.counts
}

// ---- Symbol numbers

// L11: the number of an output sample, the half plane under BPSK (R11), the quadrant under QPSK (R13), the
// octant under 8-PSK (R12); 255 where it is none (R16).
pub fn trr_symbol_number(constellation: u32, re: f32, im: f32) -> usize
    ensures { result ≡ symbol_code (symbol_of (constellation_of constellation) (record { re = re; im = im })) }
{
    let y = C32 { re: re, im: im };
    plain::symbol_code(receiver::symbol_number(plain::constellation(constellation), y))
}
