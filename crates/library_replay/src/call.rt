// A sample call as a program in C makes it: the record is lent, and the call replaces it where it stands.
ghost use Rattle.std.specs.Prelude.{◌≡◌};
ghost use Rattle.sample_calls.specs.Call.{called};
ghost use Rattle.plain_receiver.specs.Receiver.{receiver_of, outcome_of, Given};

use plain_receiver::{Receiver, ReceiverRan};
use train_receiver::trr_receiver_receive;

// The answer, and the record as the call left it.
pub(crate) fn call(
    x: Receiver,
    input: &[f32],
    strobes: &mut [f32],
    output: &mut [f32],
) -> ReceiverRan
    requires { Given x }
    ensures outcome { outcome_of result.counts result.receiver strobes.new output.new ≡ called (receiver_of x) input.now strobes.old output.old }
    ensures given { Given result.receiver }
{
    let mut lent = x;
    let counts = trr_receiver_receive(&mut lent, input, strobes, output);
    ReceiverRan {
        counts,
        receiver: lent,
    }
}
