// The set-up of a timing loop and its reset, over any sample type, from kernels/symbol_sync.rs.
ghost use Rattle.std.specs.Prelude.{◌≡◌};
ghost use Rattle.timing.specs.Setup.{tuned};
ghost use Rattle.timing.specs.Given.{Tuned};
ghost use Rattle.timing.specs.Run.{fresh, opened_by, OpeningGiven, Given};

use strobe_clock::fresh_clock;
use timing::{Hist, Params, Sample, SymbolSyncState, TimingValues, Track};
use values::Refusal;

// T6: the fresh state of these parameters: a zero history, the first strobe at input sample 1,
// omega = sps and a zero integrator.
fn start<S: Sample>(p: Params) -> SymbolSyncState<S>
    requires { Tuned p }
    ensures state { result ≡ fresh S.ops p }
    ensures given { Given result }
{
    let zero = S::zero();
    let hist = Hist {
        a: zero,
        b: zero,
        c: zero,
    };
    let track = Track {
        clock: fresh_clock(p.sps),
        y_prev: zero,
        d_prev: zero,
        mid: zero,
        mid_ready: false,
        started: false,
    };
    SymbolSyncState {
        params: p,
        hist: hist,
        track: track,
    }
}

// T4: a fresh state, or the lowest number of what is wrong with the values (T2), whose ranges stand at `TimingValues`.
pub fn set_up<S: Sample>(v: TimingValues) -> Result<SymbolSyncState<S>, Refusal>
    ensures outcome { result ≡ opened_by S.ops (tuned v.sps v.ted v.loop_bw v.damping v.max_deviation v.ted_gain) }
    ensures given { OpeningGiven result }
{
    let p = timing::tune(v)?;
    Ok(start(p))
}

// T6: the fresh state of the same parameters.
pub fn reset<S: Sample>(s: SymbolSyncState<S>) -> SymbolSyncState<S>
    requires { Given s }
    ensures state { result ≡ fresh S.ops s.params }
    ensures given { Given result }
{
    start(s.params)
}
