// The state of symbol timing recovery of complex samples, real part first in slices of f32.
// The records and what makes them are twins of `real`: the C interface takes no type parameter.
ghost use Rattle.std.specs.Prelude.{◌≡◌};
ghost use Rattle.timing.specs.Run.{OpeningGiven, called_complex};
ghost use Rattle.plain_timing.specs.Complex.{sync_of, record_of, none, set_up_of, outcome_of, Given};

use crate::params::TimingParams;
use crate::zeros::zeros;
use complex_sync::SymbolSyncState;
use timing::{Clock, Hist, Track};
use values::{C32, Counts, Refusal};

// T5: the last three samples, oldest first.
#[repr(C)]
#[derive(Clone, Copy)]
pub struct ComplexHist {
    pub a: C32,
    pub b: C32,
    pub c: C32,
}

// T5: what a run changes while it loops.
#[repr(C)]
#[derive(Clone, Copy)]
pub struct ComplexTrack {
    pub clock: Clock,
    pub y_prev: C32,
    pub d_prev: C32,
    pub mid: C32,
    pub mid_ready: bool,
    pub started: bool,
}

// The state as a plain record.
#[repr(C)]
#[derive(Clone, Copy)]
pub struct ComplexTiming {
    pub params: TimingParams,
    pub hist: ComplexHist,
    pub track: ComplexTrack,
}

// L3: the answer of a set-up: its number, and the state where the number is 0. Where it is not, there is no
// state: the record is all zeros, and no call may be given it. The number stands beside the state as the C
// interface has them.
#[repr(C)]
#[derive(Clone, Copy)]
pub struct ComplexSetUp {
    pub number: u32,
    pub state: ComplexTiming,
}

// L1: the state that a record stands for.
impl From<ComplexTiming> for SymbolSyncState {
    ghost from_gives = { λ x s. s ≡ sync_of x };

    fn from(x: ComplexTiming) -> SymbolSyncState {
        let h = x.hist;
        let t = x.track;
        SymbolSyncState {
            params: x.params.into(),
            hist: Hist {
                a: h.a,
                b: h.b,
                c: h.c,
            },
            track: Track {
                clock: t.clock,
                y_prev: t.y_prev,
                d_prev: t.d_prev,
                mid: t.mid,
                mid_ready: t.mid_ready,
                started: t.started,
            },
        }
    }
}

// L1: the record of a state.
impl From<SymbolSyncState> for ComplexTiming {
    ghost from_gives = { λ s x. x ≡ record_of s };

    fn from(s: SymbolSyncState) -> ComplexTiming {
        let h = s.hist;
        let t = s.track;
        ComplexTiming {
            params: s.params.into(),
            hist: ComplexHist {
                a: h.a,
                b: h.b,
                c: h.c,
            },
            track: ComplexTrack {
                clock: t.clock,
                y_prev: t.y_prev,
                d_prev: t.d_prev,
                mid: t.mid,
                mid_ready: t.mid_ready,
                started: t.started,
            },
        }
    }
}

// L3: zeros, what a refused set-up has in the place of a state. One text for both sample types makes them.
impl Default for ComplexTiming {
    ghost is_default = { λ x. x ≡ none };

    fn default() -> ComplexTiming {
        zeros().into()
    }
}

// L3: the answer of a set-up as a plain record.
impl From<Result<SymbolSyncState, Refusal>> for ComplexSetUp {
    ghost from_gives = { λ answer z. (z ≡ set_up_of answer) × (OpeningGiven answer → z.number ≡ 0 → Given z.state) };

    fn from(answer: Result<SymbolSyncState, Refusal>) -> ComplexSetUp {
        match answer {
            Ok(s) => ComplexSetUp {
                number: 0,
                state: s.into(),
            },
            Err(n) => ComplexSetUp {
                number: n.number(),
                state: ComplexTiming::default(),
            },
        }
    }
}

// The answer of a call, and the record after it.
#[derive(Clone, Copy)]
pub struct ComplexRan {
    pub counts: Counts,
    pub state: ComplexTiming,
}

// One call, the record by value.
pub fn run(x: ComplexTiming, input: &[f32], output: &mut [f32]) -> ComplexRan
    requires { Given x }
    ensures outcome { outcome_of result.counts result.state output.new ≡ called_complex (sync_of x) input.now output.old }
    ensures given { Given result.state }
{
    let ran = complex_sync::run(x.into(), input, output);
    ComplexRan {
        counts: ran.answer.into(),
        state: ran.state.into(),
    }
}
