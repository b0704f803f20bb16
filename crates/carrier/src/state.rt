// The state of the loop, its set-up, reset, setters and readings, from kernels/costas.rs.
ghost use Rattle.std.specs.Prelude.{◌≡◌};
ghost use Rattle.carrier.specs.Run.{replied};
ghost use Rattle.carrier.specs.State.{params_of, fresh, opened, phase_set, frequency_of, frequency_set, Given, SetUpGiven};

use crate::params::{CarrierValues, Params};
use crate::symbol::Track;
use constellations::CostasConstellation;
use values::Refusal;

// Loop bandwidth, normalized to the symbol rate.
const MIN_LOOP_BW: f64 = 0.0001;

const MAX_LOOP_BW: f64 = 0.2;

const MIN_DAMPING: f64 = 0.1;

const MAX_DAMPING: f64 = 4.0;

// Limit of the frequency integrator, in cycles per symbol.
const MIN_OFFSET: f64 = 0.0;

const MAX_OFFSET: f64 = 0.25;

// C6: the constellation, what a set-up settles, and what a run changes. `Given` (A9) is a clause of each call and no
// invariant: readings and conversions take any state.
#[derive(Clone, Copy)]
pub struct CostasState {
    pub constellation: CostasConstellation,
    pub params: Params,
    pub track: Track,
}

// K7: the number of a run's answer, 0 where the run is done. It has no counts: every input sample gives an
// output sample.
pub fn number_of(answer: Result<(), Refusal>) -> u32
    ensures { result ≡ replied answer }
{
    match answer {
        Ok(()) => 0,
        Err(n) => n.number(),
    }
}

// C5: the values of a set-up with the gains and the limit. The limit is flushed: below 1e-30 it would keep
// the integrator subnormal.
fn params_of(v: CarrierValues) -> Params
    ensures { result ≡ params_of v.loop_bw v.damping v.max_offset }
{
    let g = crate::params::loop_gains(v.loop_bw, v.damping);
    let single = numbers::narrow(v.max_offset);
    let limit = numbers::flush_denormal(single);
    Params {
        loop_bw: v.loop_bw,
        damping: v.damping,
        max_offset: v.max_offset,
        kp: g.kp,
        ki: g.ki,
        max: limit,
    }
}

// C7: phase 0, a zero frequency integrator, and the lock detector at 0, unlocked.
fn start(constellation: CostasConstellation, p: Params) -> CostasState
    ensures { result ≡ fresh constellation p }
{
    CostasState {
        constellation: constellation,
        params: p,
        track: Track::default(),
    }
}

// C4: a fresh state, or the lowest number of what is wrong with the values, whose ranges stand at
// `CarrierValues`. The original's refusal of gains that are not finite is left out: with values in range they
// are finite (`gains-finite`, A11).
pub fn set_up(constellation: CostasConstellation, v: CarrierValues) -> Result<CostasState, Refusal>
    ensures outcome { result ≡ opened constellation v.loop_bw v.damping v.max_offset }
    ensures given { SetUpGiven result }
{
    if !checks::within(MIN_LOOP_BW, v.loop_bw, MAX_LOOP_BW) {
        return Err(Refusal::Width);
    }
    if !checks::within(MIN_DAMPING, v.damping, MAX_DAMPING) {
        return Err(Refusal::Damping);
    }
    if !checks::within(MIN_OFFSET, v.max_offset, MAX_OFFSET) {
        return Err(Refusal::Pull);
    }
    let p = params_of(v);
    let s = start(constellation, p);
    Ok(s)
}

// C7: the state after construction. The parameters are kept.
pub fn reset(s: CostasState) -> CostasState
    requires { Given s }
    ensures state { result ≡ fresh s.constellation s.params }
    ensures given { Given result }
{
    start(s.constellation, s.params)
}

// C8: sets the phase, in units of 2^-32 turn.
pub fn set_phase(s: CostasState, phase: u32) -> CostasState
    requires { Given s }
    ensures state { result ≡ phase_set s phase }
    ensures given { Given result }
{
    let mut after = s;
    after.track.nco.phase = phase;
    after
}

// The frequency that is taken for freq: narrowed, flushed and limited; a NaN gives 0.
fn frequency_of(freq: f64, max: f32) -> f32
    ensures { result ≡ frequency_of freq max }
{
    let single = numbers::narrow(freq);
    let f = numbers::flush_denormal(single);
    if f != f { 0.0 } else { numbers::limit(f, max) }
}

// C9: sets the frequency integrator, in cycles per symbol. The phase and the lock detector stay.
pub fn set_frequency(s: CostasState, freq: f64) -> CostasState
    requires { Given s }
    ensures state { result ≡ frequency_set s freq }
    ensures given { Given result }
{
    let mut after = s;
    after.track.nco.freq = frequency_of(freq, s.params.max);
    after
}

// C21: the readings.
impl CostasState {
    // The frequency integrator in cycles per symbol: the estimated carrier offset.
    pub fn frequency(self) -> f64
        ensures { result ≡ self.track.nco.freq }
    {
        numbers::widen(self.track.nco.freq)
    }

    // Whether the lock detector reports lock.
    pub fn locked(self) -> bool
        ensures { result ≡ self.track.lock.locked }
    {
        self.track.lock.locked
    }

    // The smoothed lock measure.
    pub fn lock_level(self) -> f32
        ensures { result ≡ self.track.lock.level }
    {
        self.track.lock.level
    }

    // The phase before the next symbol, in units of 2^-32 turn.
    pub fn phase(self) -> u32
        ensures { result ≡ self.track.nco.phase }
    {
        self.track.nco.phase
    }

    // The constellation of the detector and the lock measure.
    pub fn constellation(self) -> CostasConstellation
        ensures { result ≡ self.constellation }
    {
        self.constellation
    }

    // The loop bandwidth, normalized to the symbol rate.
    pub fn loop_bw(self) -> f64
        ensures { result ≡ self.params.loop_bw }
    {
        self.params.loop_bw
    }

    // The damping of the loop.
    pub fn damping(self) -> f64
        ensures { result ≡ self.params.damping }
    {
        self.params.damping
    }

    // The limit of the frequency integrator in cycles per symbol.
    pub fn max_offset(self) -> f64
        ensures { result ≡ self.params.max_offset }
    {
        self.params.max_offset
    }
}
