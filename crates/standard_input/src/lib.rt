// Standard input for a program: the end of the input is told from a read that fails. Nothing here requires anything.
#![tactic(auto)]

ghost use Rattle.std.specs.Prelude.{◌≡◌, ◌≤◌, length, IfOk, IfErr};
ghost use Rattle.standard_input.specs.Counts.{IsPrefixLen};

use std::io;
use std::io::{ErrorKind, Read};

// How often a read is tried again that a signal interrupts before it has read a byte.
const RETRIES: u32 = 1000;

// One read, tried again where a signal interrupts it. It reads no byte at the end of the input.
pub fn read_some<R: Read>(input: &mut R, buf: &mut [u8]) -> io::Result<usize>
    ensures count { IfOk result (λ count. count ≤ length buf.old) }
    ensures kept { length buf.new ≡ length buf.old }
{
    for _ in 0..RETRIES {
        match input.read(buf) {
            Err(why) if why.kind() == ErrorKind::Interrupted => {}
            other => return other,
        }
    }
    input.read(buf)
}

// A read that failed: how many bytes stand in the front of the buffer before it, and why it failed.
#[derive(Clone, Copy)]
pub struct Broken {
    pub count: usize,
    pub why: io::Error,
}

// Reads until the buffer is full or the input ends, and answers how many bytes stand in its front. Where it is not full,
// the input has ended.
pub fn fill<R: Read>(input: &mut R, buf: &mut [u8]) -> Result<usize, Broken>
    ensures count { IfOk result (λ count. IsPrefixLen count buf.new) }
    ensures broken { IfErr result (λ broken. IsPrefixLen broken.count buf.new) }
    ensures kept { length buf.new ≡ length buf.old }
{
    let mut count = 0;
    // Kept as a `while`: how far a turn goes is what its read gives.
    while count < buf.len() {
        match read_some(input, &mut buf[count..]) {
            Ok(0) => break,
            Ok(more) => count += more,
            Err(why) => return Err(Broken { count, why }),
        }
    }
    Ok(count)
}
