// What the lines of recorded calls leave for the next set-up and the next run, and the output that the
// last run left. The letters mean the same wherever calls are played:
//
//   v  three words of the next set-up
//   z  resets
//   i  six f32, which go behind the input so far
//   r  runs
//   o  the next six f32 of the output, with the filling behind what was lent
ghost use Rattle.std.specs.Prelude.{◌≡◌, ◌/◌, ◌%◌, ◌^◌, ◌<◌, IfSome, is_none, ◌||◌, nat_lt, take};
ghost use Rattle.replay.specs.Buffers.{two_at, same_six, six_at, agreed};

use answers::{HIGH, Operation, high, low, word, words_agree};
use patterns::of_bits;

// The bits of the f32 that fills the output before a run: one that no ordinary signal makes.
pub const FILLING: u32 = 0xdeadbeef;

// Where the last six f32 of a buffer stand.
const LAST_SIX: u64 = 186;

// The three words of the next set-up; how many f32 were put into the input, and how many of the output were compared;
// and the input and the output.
#[derive(Clone, Copy)]
pub struct Buffers {
    // Three words, which each program reads in its own way.
    pub set_up: [u64; 3],
    pub taken: u64,
    pub compared: u64,
    pub input: [f32; 192],
    pub output: [f32; 192],
}

fn put(input: &mut [f32; 192], k: usize, word: u64)
    requires { k < 191 }
{
    input[k] = high(word);
    input[k + 1] = low(word);
}

fn put_six(input: &mut [f32; 192], k: usize, op: Operation)
    requires { k < 187 }
{
    put(input, k, op.x);
    put(input, k + 2, op.y);
    put(input, k + 4, op.answer);
}

fn word_at(output: &[f32; 192], k: usize) -> u64
    requires { k < 191 }
    ensures { result ≡ two_at output.now k }
{
    word(output[k], output[k + 1])
}

fn six_agree(output: &[f32; 192], k: usize, op: Operation) -> bool
    requires { k < 187 }
    ensures { result ≡ same_six output.now k op }
{
    words_agree(
        word_at(output, k),
        word_at(output, k + 2),
        word_at(output, k + 4),
        op,
    )
}

// Where the line's six f32 stand in a buffer, by the count so far. What has no room comes to stand at its end.
fn next_six(count: &mut u64) -> usize
    ensures place { result ≡ six_at count.old }
    ensures room { result < 187 }
{
    let at = *count;
    if at > LAST_SIX {
        return LAST_SIX as usize;
    }
    *count = at + 6;
    at as usize
}

impl Buffers {
    // Before the first line.
    pub fn new() -> Self
        ensures { (result.taken ≡ 0) × (result.compared ≡ 0) }
    {
        Buffers {
            set_up: [0; 3],
            taken: 0,
            compared: 0,
            input: [0.0; 192],
            output: [0.0; 192],
        }
    }

    // Makes ready for a run, and for the input of the one after it.
    fn next_run(&mut self) {
        self.taken = 0;
        self.compared = 0;
        self.output = [of_bits(FILLING); 192];
    }

    // Plays a line on the buffers. Answers whether it agrees, or false if the state has to say so.
    pub fn play(&mut self, op: Operation) -> bool
        ensures { result ≡ agreed op self.old }
    {
        match op.letter {
            b'v' => {
                self.set_up = [op.x, op.y, op.answer];
                true
            }
            b'i' => {
                let at = next_six(&mut self.taken);
                put_six(&mut self.input, at, op);
                true
            }
            b'o' => {
                let at = next_six(&mut self.compared);
                six_agree(&self.output, at, op)
            }
            b'r' => {
                self.next_run();
                false
            }
            b'z' => words_agree(0, 0, 0, op),
            _ => false,
        }
    }
    // As much of the buffers as a run's line says, or nothing if they have less.
    pub fn lend(&mut self, op: Operation) -> Option<(&[f32], &mut [f32])>
        ensures lent { IfSome result (λ lent. (lent.0.now ≡ take (op.x % 2 ^ 32) self.old.input) × (lent.1.now ≡ take (op.x / 2 ^ 32) self.old.output)) }
        ensures less { is_none result ≡ (nat_lt 192 (op.x % 2 ^ 32) || nat_lt 192 (op.x / 2 ^ 32)) }
    {
        let taken = (op.x % HIGH) as usize;
        let places = (op.x / HIGH) as usize;
        let input = &self.input;
        let output = &mut self.output;
        if taken > input.len() || places > output.len() {
            return None;
        }
        Some((&input[..taken], &mut output[..places]))
    }
}
