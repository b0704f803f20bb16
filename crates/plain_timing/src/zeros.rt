// A state of zeros over any sample type, which stands where there is none.
ghost use Rattle.std.specs.Prelude.{◌≡◌};
ghost use Rattle.plain_timing.specs.Params.{zeros};

use timing::{Clock, Hist, Params, Sample, SymbolSyncState, Ted, Track};

// L3: what a refused set-up has in the place of a state.
pub(crate) fn zeros<S: Sample>() -> SymbolSyncState<S>
    ensures { result ≡ zeros S.ops.zero }
{
    let zero = S::zero();
    SymbolSyncState {
        params: Params {
            sps: 0.0,
            ted: Ted::Gardner,
            loop_bw: 0.0,
            damping: 0.0,
            max_deviation: 0.0,
            ted_gain: 0.0,
            kp: 0.0,
            ki: 0.0,
            lim: 0.0,
        },
        hist: Hist {
            a: zero,
            b: zero,
            c: zero,
        },
        track: Track {
            clock: Clock {
                i: 0,
                mu: 0.0,
                omega: 0.0,
                integ: 0.0,
            },
            y_prev: zero,
            d_prev: zero,
            mid: zero,
            mid_ready: false,
            started: false,
        },
    }
}
