// P5: writes a sample recording to standard output: 1,000 QPSK symbols, 4 samples each, as complex f32,
// little-endian, real part first. The samples stand beside the symbol instants and the carrier is a little
// off, so that both loops of the receiver have something to correct. Arguments and a write that fails are
// said on error output, and end the program.
#![tactic(auto)]

mod error;
mod source;
mod wave;

use error::Error;
use source::Source;
use std::env::{Env, FillError};

// How many symbols are written.
const SYMBOLS: u64 = 1000;

// How many bytes the samples of a symbol take.
const BYTES: usize = 32;

fn write_recording(rt: &impl Print) -> Result<(), Error> {
    let table = tables::cos_f32_table();
    let mut source = Source::start();
    for _ in 0..SYMBOLS {
        let samples = wave::samples_of(&table, source);
        let mut bytes = [0u8; BYTES];
        recordings::write_samples(&samples, &mut bytes);
        rt.write_all(&bytes)?;
        source = source.next();
    }
    Ok(())
}

fn run(rt: &(impl Env + Print)) -> Result<(), Error> {
    // Argument 0 is the program's own name.
    match rt.arg(1, &mut [0u8; 1]) {
        Err(FillError::NotPresent) => write_recording(rt),
        _ => Err(Error::Arguments),
    }
}

fn main(rt: HostRuntime) {
    if let Err(error) = run(&rt) {
        error::tell(&rt, error);
    }
}
