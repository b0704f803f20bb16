// A block of the recording, received call by call.
ghost use Rattle.std.specs.Prelude.{◌≡◌, length, IfOk};
ghost use Rattle.receiver.specs.Record.{Given};
ghost use Rattle.receive_recording.specs.Block.{call_on, called_of, ended_by, received};

use crate::report;
use receiver::Receiver;
use std::io;
use values::Counts;

// How many f32 are lent for the symbols of a call: two for each of 256.
const PLACES: usize = 512;

// A call: its number and counts, the receiver after it, and how many symbols read none up to then.
#[derive(Clone, Copy)]
pub(crate) struct Called {
    pub counts: Counts,
    pub receiver: Receiver,
    pub none: u64,
}

// A block: the number of the refusal that ended it or 0, the receiver after it, and how many symbols read none up to
// then. Kept with a number: the theorems block-accepted and blocks-never-show speak of it.
#[derive(Clone, Copy)]
pub(crate) struct Received {
    pub number: u32,
    pub receiver: Receiver,
    pub none: u64,
}

// What a block comes to with its last call.
impl From<Called> for Received {
    ghost from_gives = { λ last block. block ≡ ended_by last };

    fn from(last: Called) -> Received {
        Received {
            number: last.counts.number,
            receiver: last.receiver,
            none: last.none,
        }
    }
}

// One call, with places for 256 symbols. Those that it produces are written. Before it `none` symbols
// read none.
fn call(rt: &impl Print, r: Receiver, none: u64, input: &[f32]) -> io::Result<Called>
    requires { Given r }
    ensures outcome { IfOk result (λ called. called ≡ called_of none (call_on r input.now)) }
    ensures given { IfOk result (λ called. Given called.receiver) }
{
    let mut strobes = [0.0f32; PLACES];
    let mut output = [0.0f32; PLACES];
    let ran = sample_calls::run(r, input, &mut strobes, &mut output);
    let counts = Counts::from(ran.answer);
    report::symbols(rt, r, &output, counts.produced)?;
    Ok(Called {
        counts: counts,
        receiver: ran.receiver,
        none: recordings::none_with(none, &output, counts.produced),
    })
}

// Calls with what is left of the block until all of it is consumed or nothing is produced. A proved loop has to
// end: as many calls are made at most as the block has f32.
pub(crate) fn receive(
    rt: &impl Print,
    r: Receiver,
    before: u64,
    input: &[f32],
) -> io::Result<Received>
    requires { Given r }
    ensures outcome { IfOk result (λ block. block ≡ received (length input.now) r before input.now) }
    ensures given { IfOk result (λ block. Given block.receiver) }
{
    let mut receiver = r;
    let mut none = before;
    let mut at = 0;
    for _made in 0..input.len() {
        let called = call(rt, receiver, none, &input[at..])?;
        let whole = (input.len() - at) / 2;
        if called.counts.produced == 0 || called.counts.consumed >= whole {
            return Ok(Received::from(called));
        }
        receiver = called.receiver;
        none = called.none;
        at += 2 * called.counts.consumed;
    }
    Ok(Received {
        number: 0,
        receiver: receiver,
        none: none,
    })
}
