// The receiver's set-up, reset, phase setting and readings. Its record is the one whose count has 64 bits (R2, R18).
ghost use Rattle.std.specs.Prelude.{◌≡◌};
ghost use Rattle.timing.specs.Clock.{next_strobe};
ghost use Rattle.receiver.specs.Record.{unnamed, opened, restarted, phase_set, Given, SetUpGiven};

use crate::loops::join;
use carrier::{CarrierValues, CostasConstellation};
use receiver_records::Receiver64 as Receiver;
use timing::TimingValues;
use values::Refusal;

// ---- Set-up

// R4: a fresh receiver, or the number of what is wrong, with timing's values checked before the carrier's.
// `TimingValues` and `CarrierValues` have the ranges.
pub fn set_up(
    constellation: CostasConstellation,
    t: TimingValues,
    c: CarrierValues,
) -> Result<Receiver, Refusal>
    ensures outcome { result ≡ opened constellation t c }
    ensures given { SetUpGiven result }
{
    let timing = complex_sync::set_up(t)?;
    let carrier = carrier::set_up(constellation, c)?;
    Ok(join(timing, carrier))
}

// R3: a set-up for BPSK, where no constellation is named. `TimingValues` and `CarrierValues` have the ranges.
pub fn set_up_unnamed(t: TimingValues, c: CarrierValues) -> Result<Receiver, Refusal>
    ensures outcome { result ≡ opened unnamed t c }
    ensures given { SetUpGiven result }
{
    set_up(CostasConstellation::Bpsk, t, c)
}

// R7: both loops as after the set-up, and a count of 0.
pub fn reset(r: Receiver) -> Receiver
    requires { Given r }
    ensures state { result ≡ restarted r }
    ensures given { Given result }
{
    Receiver {
        timing: complex_sync::reset(r.timing),
        carrier: carrier::reset(r.carrier),
        count: 0,
    }
}

// R8: sets the carrier's phase, in units of 2^-32 turn.
pub fn set_phase(r: Receiver, phase: u32) -> Receiver
    requires { Given r }
    ensures state { result ≡ phase_set r phase }
    ensures given { Given result }
{
    let carrier = carrier::set_phase(r.carrier, phase);
    Receiver { carrier, ..r }
}

// ---- Readings (R9)

// The pace: the current estimate of the samples per symbol.
pub fn sps_estimate(r: Receiver) -> f64
    ensures { result ≡ r.timing.track.clock.omega }
{
    r.timing.sps_estimate()
}

// The instant of the next strobe in input samples, counted from the first sample of the next
// call's input. It is negative while the strobe lies in the history.
pub fn next_strobe(r: Receiver) -> f64
    ensures { result ≡ next_strobe r.timing.track.clock }
{
    r.timing.next_strobe()
}

// The carrier's frequency, in cycles per symbol.
pub fn frequency(r: Receiver) -> f64
    ensures { result ≡ r.carrier.track.nco.freq }
{
    r.carrier.frequency()
}

// Whether the lock detector reports lock.
pub fn locked(r: Receiver) -> bool
    ensures { result ≡ r.carrier.track.lock.locked }
{
    r.carrier.locked()
}

// The smoothed lock measure.
pub fn lock_level(r: Receiver) -> f32
    ensures { result ≡ r.carrier.track.lock.level }
{
    r.carrier.lock_level()
}

// The carrier's phase before the next symbol, in units of 2^-32 turn.
pub fn phase(r: Receiver) -> u32
    ensures { result ≡ r.carrier.track.nco.phase }
{
    r.carrier.phase()
}

// The constellation.
pub fn constellation(r: Receiver) -> CostasConstellation
    ensures { result ≡ r.carrier.constellation }
{
    r.carrier.constellation()
}

// How many symbols were produced since the set-up or the last reset, up to 18,446,744,073,709,551,615 (R18).
pub fn count(r: Receiver) -> u64
    ensures { result ≡ r.count }
{
    r.count
}
