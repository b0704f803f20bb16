// The carrier loop's state as a plain record, in which a number stands for the constellation: what comes in
// as a record is turned into the state, and what goes out into a record again. `crates/train_receiver`
// exports it.
#![tactic(auto)]

ghost use Rattle.std.specs.Prelude.{◌≡◌};
ghost use Rattle.carrier.specs.State.{SetUpGiven};
ghost use Rattle.carrier.specs.Run.{replied, called};
ghost use Rattle.plain_carrier.specs.Carrier.{state_of, record_of, set_up_of, outcome_of, Given};

use carrier::{CostasState, Params, Track};
use plain::{constellation, constellation_code};
use values::Refusal;

// The state as a plain record. All zeros, by default, it stands for no state.
#[repr(C)]
#[derive(Clone, Copy, Default)]
pub struct Carrier {
    // 0 BPSK, 1 QPSK, 2 8-PSK.
    pub constellation: u32,
    pub params: Params,
    pub track: Track,
}

// L3: the answer of a set-up: its number, and the state where the number is 0. Where it is not, there is no
// state: the record is all zeros, and no call may be given it. The number stands beside the state as the C
// interface has them.
#[repr(C)]
#[derive(Clone, Copy)]
pub struct CarrierSetUp {
    pub number: u32,
    pub state: Carrier,
}

// L1: the state that a record stands for.
impl From<Carrier> for CostasState {
    ghost from_gives = { λ x s. s ≡ state_of x };

    fn from(x: Carrier) -> CostasState {
        CostasState {
            constellation: constellation(x.constellation),
            params: x.params,
            track: x.track,
        }
    }
}

// L1: the record of a state.
impl From<CostasState> for Carrier {
    ghost from_gives = { λ s x. x ≡ record_of s };

    fn from(s: CostasState) -> Carrier {
        Carrier {
            constellation: constellation_code(s.constellation),
            params: s.params,
            track: s.track,
        }
    }
}

// L3: the answer of a set-up as a plain record.
impl From<Result<CostasState, Refusal>> for CarrierSetUp {
    ghost from_gives = { λ answer z. (z ≡ set_up_of answer) × (SetUpGiven answer → z.number ≡ 0 → Given z.state) };

    fn from(answer: Result<CostasState, Refusal>) -> CarrierSetUp {
        match answer {
            Ok(s) => CarrierSetUp {
                number: 0,
                state: s.into(),
            },
            Err(n) => CarrierSetUp {
                number: n.number(),
                state: Carrier::default(),
            },
        }
    }
}

// The answer of a call, and the record after it.
#[derive(Clone, Copy)]
pub struct CarrierRan {
    pub answer: Result<(), Refusal>,
    pub state: Carrier,
}

// One call, the record by value.
pub fn run(x: Carrier, input: &[f32], output: &mut [f32]) -> CarrierRan
    requires { Given x }
    ensures outcome { outcome_of (replied result.answer) result.state output.new ≡ called (state_of x) input.now output.old }
    ensures given { Given result.state }
{
    let ran = costas::run(x.into(), input, output);
    CarrierRan {
        answer: ran.answer,
        state: ran.state.into(),
    }
}
