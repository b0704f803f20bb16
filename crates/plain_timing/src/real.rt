// The state of symbol timing recovery of real samples.
// The records and what makes them are twins of `complex`: the C interface takes no type parameter.
ghost use Rattle.std.specs.Prelude.{◌≡◌};
ghost use Rattle.timing.specs.Run.{OpeningGiven, called_real};
ghost use Rattle.real_sync.specs.Views.{outcome_of};
ghost use Rattle.plain_timing.specs.Real.{sync_of, record_of, none, set_up_of, Given};

use crate::params::TimingParams;
use crate::zeros::zeros;
use real_sync::SymbolSyncState;
use timing::{Clock, Hist, Track};
use values::{Progress, Refusal};

// T5: the last three samples, oldest first.
#[repr(C)]
#[derive(Clone, Copy)]
pub struct RealHist {
    pub a: f32,
    pub b: f32,
    pub c: f32,
}

// T5: what a run changes while it loops.
#[repr(C)]
#[derive(Clone, Copy)]
pub struct RealTrack {
    pub clock: Clock,
    pub y_prev: f32,
    pub d_prev: f32,
    pub mid: f32,
    pub mid_ready: bool,
    pub started: bool,
}

// The state as a plain record.
#[repr(C)]
#[derive(Clone, Copy)]
pub struct RealTiming {
    pub params: TimingParams,
    pub hist: RealHist,
    pub track: RealTrack,
}

// L3: the answer of a set-up: its number, and the state where the number is 0. Where it is not, there is no
// state: the record is all zeros, and no call may be given it. The number stands beside the state as the C
// interface has them.
#[repr(C)]
#[derive(Clone, Copy)]
pub struct RealSetUp {
    pub number: u32,
    pub state: RealTiming,
}

// L1: the state that a record stands for.
impl From<RealTiming> for SymbolSyncState {
    ghost from_gives = { λ x s. s ≡ sync_of x };

    fn from(x: RealTiming) -> SymbolSyncState {
        let h = x.hist;
        let t = x.track;
        SymbolSyncState {
            params: x.params.into(),
            hist: Hist {
                a: h.a,
                b: h.b,
                c: h.c,
            },
            track: Track {
                clock: t.clock,
                y_prev: t.y_prev,
                d_prev: t.d_prev,
                mid: t.mid,
                mid_ready: t.mid_ready,
                started: t.started,
            },
        }
    }
}

// L1: the record of a state.
impl From<SymbolSyncState> for RealTiming {
    ghost from_gives = { λ s x. x ≡ record_of s };

    fn from(s: SymbolSyncState) -> RealTiming {
        let h = s.hist;
        let t = s.track;
        RealTiming {
            params: s.params.into(),
            hist: RealHist {
                a: h.a,
                b: h.b,
                c: h.c,
            },
            track: RealTrack {
                clock: t.clock,
                y_prev: t.y_prev,
                d_prev: t.d_prev,
                mid: t.mid,
                mid_ready: t.mid_ready,
                started: t.started,
            },
        }
    }
}

// L3: zeros, what a refused set-up has in the place of a state. One text for both sample types makes them.
impl Default for RealTiming {
    ghost is_default = { λ x. x ≡ none };

    fn default() -> RealTiming {
        zeros().into()
    }
}

// L3: the answer of a set-up as a plain record.
impl From<Result<SymbolSyncState, Refusal>> for RealSetUp {
    ghost from_gives = { λ answer z. (z ≡ set_up_of answer) × (OpeningGiven answer → z.number ≡ 0 → Given z.state) };

    fn from(answer: Result<SymbolSyncState, Refusal>) -> RealSetUp {
        match answer {
            Ok(s) => RealSetUp {
                number: 0,
                state: s.into(),
            },
            Err(n) => RealSetUp {
                number: n.number(),
                state: RealTiming::default(),
            },
        }
    }
}

// The counts of a call, and the record after it.
#[derive(Clone, Copy)]
pub struct RealRan {
    pub counts: Progress,
    pub state: RealTiming,
}

// One call, the record by value.
pub fn run(x: RealTiming, input: &[f32], output: &mut [f32]) -> RealRan
    requires { Given x }
    ensures outcome { outcome_of result.counts (sync_of result.state) output.new ≡ called_real (sync_of x) input.now output.old }
    ensures given { Given result.state }
{
    let ran = real_sync::run(x.into(), input, output);
    RealRan {
        counts: ran.progress,
        state: ran.state.into(),
    }
}
