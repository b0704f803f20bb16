// A call on the three samples of a line.
ghost use Rattle.std.specs.Prelude.{◌≡◌, length};

use crate::call::call;
use crate::held::Held;
use answers::{Operation, high, low, of_bits, word};
use replay::buffers::FILLING;
use values::Counts;

// How many f32 a line has.
const SIX: usize = 6;

// Six f32, as a line has them.
#[derive(Clone, Copy, Default)]
pub(crate) struct Six {
    pub x: u64,
    pub y: u64,
    pub z: u64,
}

// What a call left in the buffers, and whether it answers what the line says. Kept as a flag: the buffers hold what the
// call left in either case.
#[derive(Clone, Copy)]
pub(crate) struct Left {
    pub strobes: Six,
    pub output: Six,
    pub agrees: bool,
}

// The words of six f32.
fn words_of(f: [f32; 6]) -> Six {
    Six {
        x: word(f[0], f[1]),
        y: word(f[2], f[3]),
        z: word(f[4], f[5]),
    }
}

// The f32 of a line.
fn floats_of(line: Operation) -> [f32; 6]
    ensures { length result ≡ 6 }
{
    [
        high(line.x),
        low(line.x),
        high(line.y),
        low(line.y),
        high(line.answer),
        low(line.answer),
    ]
}

// Whether the call answers what the line says.
fn counts_agree(counts: Counts, op: Operation) -> bool {
    counts.consumed as u64 == op.y % 0x1_0000_0000
        && counts.produced as u64 == op.y / 0x1_0000_0000
        && counts.number as u64 == op.answer
}

impl Held {
    // Calls with as much of the buffers as the line says, and no more than there is.
    pub(crate) fn run(&mut self, line: Operation, op: Operation) -> Left {
        let input = floats_of(line);
        let mut strobes = [of_bits(FILLING); SIX];
        let mut output = [of_bits(FILLING); SIX];
        let n = SIX.min((op.x % 0x1_0000) as usize);
        let found = SIX.min((op.x / 0x1_0000 % 0x1_0000) as usize);
        let places = SIX.min((op.x / 0x1_0000_0000) as usize);
        let ran = call(
            self.receiver,
            &input[..n],
            &mut strobes[..found],
            &mut output[..places],
        );
        self.receiver = ran.receiver;
        Left {
            strobes: words_of(strobes),
            output: words_of(output),
            agrees: counts_agree(ran.counts, op),
        }
    }
}
