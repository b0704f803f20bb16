// One command of the tape, read from standard input.
ghost use Rattle.std.specs.Prelude.{◌≡◌, ◌≤◌, length, take};
ghost use Rattle.little_endian.specs.Samples.{stored_bytes};
ghost use Rattle.tape.specs.Desk.{Given};
ghost use Rattle.tape.specs.Steps.{stepped, answer_of, symbols_of, StepGiven};
ghost use Rattle.order_tape.specs.Command.{ReadTo, command_of};

use std::io;
use std::io::Read;
use tape::{Desk, Step};

// How many bytes the longest command has, which brings 2,048 samples, and how many bytes their symbols have at most.
pub(crate) const LONGEST: usize = 16387;

pub(crate) const SYMBOLS: usize = 16384;

// What came of a command: what the step says of its bytes, and how many of them were read. Where the step wants more
// bytes, the tape has ended.
#[derive(Clone, Copy)]
pub(crate) struct Command {
    pub step: Step,
    pub read: usize,
}

// A read that failed: what had come of the command, and why it failed.
#[derive(Clone, Copy)]
pub(crate) struct Broken {
    pub command: Command,
    pub why: io::Error,
}

// O3: reads the bytes that the next field wants, and no more, until the command is carried out or refused or the tape
// ends. The command's bytes lie at the front of one buffer then, its symbols at the front of the other.
pub(crate) fn read(
    reader: &mut impl Read,
    desk: Desk,
    bytes: &mut [u8],
    symbols: &mut [u8],
) -> Result<Command, Broken>
    requires given_2 { Given desk }
    requires room { 16387 ≤ length bytes.old }
    ensures outcome { (command_of result).step ≡ answer_of (length symbols.old) (stepped desk (take (command_of result).read bytes.new)) }
    ensures symbols { symbols.new ≡ stored_bytes (symbols_of (stepped desk (take (command_of result).read bytes.new))) symbols.old }
    ensures end { ReadTo (command_of result).read (command_of result).step }
    ensures given { StepGiven (command_of result).step }
{
    let mut read = 0;
    // Kept as a loop: how many reads a command takes shows only as its fields come.
    loop {
        let step = tape::step(desk, &bytes[..read], symbols);
        let Step::Wants(k) = step else {
            return Ok(Command { step, read });
        };
        let end = read + k;
        match standard_input::read_some(reader, &mut bytes[read..end]) {
            Ok(0) => return Ok(Command { step, read }),
            Ok(more) => read += more,
            Err(why) => {
                let command = Command { step, read };
                return Err(Broken { command, why });
            }
        }
    }
}
