// O1 to O12: plays an order tape, which stands on standard input: commands of one byte with their operands, which set
// up the loops of the receiver, bring samples and reset it. The symbols of a command are written to standard output as
// pairs of f32, little-endian, real part first, before the next command is read. A refusal is written to error output
// as its number and a line end, and ends the program. What else goes wrong is said there in words, and ends it too.
#![tactic(auto)]

mod command;
mod error;

use error::Error;
use std::env::{Env, FillError};
use std::io::Read;
use tape::{Desk, Step};
use values::Refusal;

// A proved loop has to end, and nothing says that the tape does. So many commands are carried out at most, 2^64 - 1:
// no tape reaches that, not even one of nothing but resets.
const COMMANDS: u64 = 0xffff_ffff_ffff_ffff;

// Carries out command after command, up to the end of the tape or a refusal.
fn play(rt: &impl Print, reader: &mut impl Read) -> Result<(), Error> {
    let mut bytes = [0u8; command::LONGEST];
    let mut symbols = [0u8; command::SYMBOLS];
    let mut desk = Desk::Empty;
    for _ in 0..COMMANDS {
        let command = command::read(reader, desk, &mut bytes, &mut symbols)?;
        match command.step {
            Step::Done(carried) => {
                rt.write_all(&symbols[..carried.written])
                    .map_err(Error::Write)?;
                desk = carried.desk;
            }
            Step::Refused(stop) => return Err(Error::from(stop.reason)),
            // The tape has ended, between two commands or inside one.
            Step::Wants(_) if command.read == 0 => return Ok(()),
            Step::Wants(_) => return Err(Error::from(Refusal::Cut)),
        }
    }
    Err(Error::TooLong)
}

fn run(rt: &(impl Env + Input + Print)) -> Result<(), Error> {
    // Argument 0 is the program's own name.
    match rt.arg(1, &mut [0u8; 1]) {
        Err(FillError::NotPresent) => play(rt, &mut rt.reader()),
        _ => Err(Error::Arguments),
    }
}

fn main(rt: HostRuntime) {
    if let Err(error) = run(&rt) {
        error::tell(&rt, error);
    }
}
