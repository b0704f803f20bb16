// The receiver's set-up and calls, with the receiver as a plain record. What comes in as a record is turned into the
// receiver, and what goes out into a record again. `crates/train_receiver` exports it.
#![tactic(auto)]

ghost use Rattle.std.specs.Prelude.{◌≡◌};
ghost use Rattle.receiver.specs.Record.{SetUpGiven};
ghost use Rattle.sample_calls.specs.Call.{called};
ghost use Rattle.plain_receiver.specs.Receiver.{receiver_of, set_up_of, outcome_of, Given};

pub use plain_records::Receiver64 as Receiver;
use values::{Counts, Refusal};

// L3: the answer of a set-up: its number, and the receiver where the number is 0. Where it is not, there is
// no receiver: the record is all zeros, and no call may be given it. The number stands beside the receiver as the C
// interface has them.
#[repr(C)]
#[derive(Clone, Copy)]
pub struct ReceiverSetUp {
    pub number: u32,
    pub receiver: Receiver,
}

// L3: the answer of a set-up as a plain record.
impl From<Result<receiver::Receiver, Refusal>> for ReceiverSetUp {
    ghost from_gives = { λ answer z. (z ≡ set_up_of answer) × (SetUpGiven answer → z.number ≡ 0 → Given z.receiver) };

    fn from(answer: Result<receiver::Receiver, Refusal>) -> ReceiverSetUp {
        match answer {
            Ok(r) => ReceiverSetUp {
                number: 0,
                receiver: r.into(),
            },
            Err(n) => ReceiverSetUp {
                number: n.number(),
                receiver: Receiver::default(),
            },
        }
    }
}

// The answer of a call as the C interface has it, and the record after it.
#[derive(Clone, Copy)]
pub struct ReceiverRan {
    pub counts: Counts,
    pub receiver: Receiver,
}

// One call, the record by value.
pub fn run(x: Receiver, input: &[f32], strobes: &mut [f32], output: &mut [f32]) -> ReceiverRan
    requires { Given x }
    ensures outcome { outcome_of result.counts result.receiver strobes.new output.new ≡ called (receiver_of x) input.now strobes.old output.old }
    ensures given { Given result.receiver }
{
    let ran = sample_calls::run(x.into(), input, strobes, output);
    ReceiverRan {
        counts: ran.answer.into(),
        receiver: ran.receiver.into(),
    }
}
