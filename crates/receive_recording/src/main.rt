// P1, P3, P4 and P8: receives a recording, which stands on standard input: complex f32 samples,
// little-endian, real part first. Writes the number of each symbol as a digit, and `-` for one that reads
// none, 64 to a line; at the end how many symbols there are, how many of them read none, the pace, and
// whether the carrier is locked; and a remark if no sample is finite and not silent.
// What goes wrong is said on error output, and ends the program.
#![tactic(auto)]

mod block;
mod error;
mod report;

ghost use Rattle.receiver.specs.Record.{Given};

use carrier::CostasConstellation;
use error::Error;
use receiver::Receiver;
use recordings::Content;
use std::env::{Env, FillError};
use std::io::Read;
use timing::Ted;

// A proved loop has to end, and nothing says that the input does. So many blocks are read at most, 2^64
// samples; a recording must have fewer (P1). With P1's settings a symbol takes more than two samples (T18),
// so that the receiver can count them all (R18).
const BLOCKS: u64 = 0x20_0000_0000_0000;

// How many bytes a block of 2,048 samples has, how many f32 these are, and how many bytes a sample has.
const BLOCK: usize = 16384;

const PARTS: usize = 4096;

const SAMPLE: usize = 8;

// How far the recording is received: the receiver, which a set-up or a call gave, how many symbols read none, and what
// the samples so far are.
#[derive(Clone, Copy)]
struct Sofar {
    receiver: Receiver,
    none: u64,
    content: Content,
    ghost given: { Given receiver },
}

// Receives the next block; behind the last one it writes the summary, and nothing follows.
fn advance(rt: &impl Print, reader: &mut impl Read, s: Sofar) -> Result<Option<Sofar>, Error> {
    let mut bytes = [0u8; BLOCK];
    let n = standard_input::fill(reader, &mut bytes)?;
    let mut input = [0.0f32; PARTS];
    let parts = 2 * recordings::read_samples(&bytes[..n], &mut input);
    let content = recordings::content_with(s.content, &input[..parts]);
    let received = block::receive(rt, s.receiver, s.none, &input[..parts]).map_err(Error::Write)?;
    if received.number > 0 {
        return Err(Error::Refused(received.number));
    }
    let after = Sofar {
        receiver: received.receiver,
        none: received.none,
        content: content,
    };
    if n == BLOCK {
        return Ok(Some(after));
    }
    report::summary(rt, after).map_err(Error::Write)?;
    if n % SAMPLE > 0 {
        return Err(Error::CutShort);
    }
    Ok(None)
}

// Receives block after block, up to the end of the input.
fn receive(rt: &impl Print, reader: &mut impl Read, r: Receiver) -> Result<(), Error>
    requires { Given r }
{
    let mut sofar = Sofar {
        receiver: r,
        none: 0,
        content: Content::Empty,
    };
    for _ in 0..BLOCKS {
        let Some(after) = advance(rt, reader, sofar)? else {
            return Ok(());
        };
        sofar = after;
    }
    Err(Error::TooLong)
}

fn run(rt: &(impl Env + Input + Print)) -> Result<(), Error> {
    // Argument 0 is the program's own name.
    let Err(FillError::NotPresent) = rt.arg(1, &mut [0u8; 1]) else {
        return Err(Error::Arguments);
    };
    let r = receiver::set_up(
        CostasConstellation::Qpsk,
        recordings::timing_defaults(Ted::Gardner),
        recordings::carrier_defaults(),
    )?;
    receive(rt, &mut rt.reader(), r)
}

fn main(rt: HostRuntime) {
    if let Err(error) = run(&rt) {
        error::tell(&rt, error);
    }
}
