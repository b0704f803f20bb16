// A sample call: timing writes strobes to one buffer, and of these the carrier writes symbols to another.
ghost use Rattle.std.specs.Prelude.{◌≡◌, length};
ghost use Rattle.receiver.specs.Record.{Given};
ghost use Rattle.sample_calls.specs.Call.{done, called, outcome_of, answered};

use receiver::Receiver;
use values::{Progress, Refusal, counted};

// The answer of a sample call, and the receiver after it.
#[derive(Clone, Copy)]
pub struct Ran {
    pub answer: Result<Progress, Refusal>,
    pub receiver: Receiver,
}

// R1: a call whose strobe buffer is as long as the output. Neither loop refuses anything.
fn accepted(r: Receiver, input: &[f32], strobes: &mut [f32], output: &mut [f32]) -> Ran
    requires given { Given r }
    requires equal { length strobes.old ≡ length output.old }
    ensures { answered result strobes.new output.new ≡ done r input.now strobes.old output.old }
{
    let t = r.timing;
    let c = r.carrier;
    let timed = complex_sync::recover(t, input, strobes);
    let progress = timed.progress;
    let produced = progress.produced;
    let n = 2 * produced;
    let carrier = costas::carry(c, &strobes[..n], output);
    let timing = timed.state;
    let receiver = Receiver {
        timing: timing,
        carrier: carrier,
        count: counted(r.count, produced),
    };
    Ran {
        answer: Ok(progress),
        receiver: receiver,
    }
}

// A refused call.
fn refused(n: Refusal, r: Receiver) -> Ran
    ensures { result ≡ record { answer = Err n; receiver = r } }
{
    Ran {
        answer: Err(n),
        receiver: r,
    }
}

// Input, strobes and output travel one by one, here and wherever a call is made: the C interface has them so.
// R10, R15: one call. An odd count of f32 in any buffer is refused, then a strobe buffer that is not as long as
// the output, with the same receiver and every buffer as found.
pub fn run(r: Receiver, input: &[f32], strobes: &mut [f32], output: &mut [f32]) -> Ran
    requires { Given r }
    ensures outcome { answered result strobes.new output.new ≡ called r input.now strobes.old output.old }
    ensures given { Given result.receiver }
{
    if input.len() % 2 == 1 || strobes.len() % 2 == 1 || output.len() % 2 == 1 {
        return refused(Refusal::Odd, r);
    }
    if strobes.len() != output.len() {
        return refused(Refusal::Uneven, r);
    }
    accepted(r, input, strobes, output)
}

// R2, R15: one call over a receiver that the caller lends, and that the call replaces by the new one.
pub fn receive(
    r: &mut Receiver,
    input: &[f32],
    strobes: &mut [f32],
    output: &mut [f32],
) -> Result<Progress, Refusal>
    requires { Given r.old }
    ensures outcome { outcome_of result r.new strobes.new output.new ≡ called r.old input.now strobes.old output.old }
    ensures given { Given r.new }
{
    let ran = run(*r, input, strobes, output);
    *r = ran.receiver;
    ran.answer
}
