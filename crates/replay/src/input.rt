// Reading into a buffer of known size.
ghost use Rattle.replay.specs.Input.{IsPrefixLen};

use std::io::Read;

// Reads until the buffer is full, the input ends or a read fails, and says how many bytes were put at the start of
// the buffer.
pub fn read_full<R: Read>(input: &mut R, buf: &mut [u8]) -> usize
    ensures { IsPrefixLen result buf.new }
{
    let mut count = 0;
    // Kept as a loop: how much a read gives says where the next one begins, and no method of std's counts what it read
    // before the input ended. Kept beside `standard_input::fill`, which tries an interrupted read again.
    while count < buf.len() {
        match input.read(&mut buf[count..]) {
            Ok(0) => return count,
            Ok(n) => count += n,
            Err(_) => return count,
        }
    }
    count
}
