// P6, P7: replays recorded answers of the receiver, which stand on standard input: set-ups, resets, phases that
// are set and runs, each field of the record after them, and symbol numbers. Says how many lines were played
// of each kind, and how many differ from what `receiver`, `sample_calls` and `symbol_numbers` compute.
//
// Beside the receiver of the lines a second one is played: it is set up, reset and run likewise, but each of
// its samples is turned k quarter turns, and its phase is m quarter turns on. After each run the two are
// compared as Q7 and Q8 say; that is one answer more.
//
// A line has 53 bytes: a letter, then three words of 16 hexadecimal digits, each after a space, and
// a line end. Two f32 of a sample stand in one word, the first in its high half; any other f32 stands in
// the low half of its word, after zeros. A word that is not named is zero.
//
//   v  sps, loop bandwidth, damping              of the next set-up's timing
//   c  loop bandwidth, damping, maximum offset   of its carrier
//   n  maximum deviation, detector gain, detector + 2 constellation + 16 number + 256 k + 1024 m: sets
//      up; detector 1 is Mueller-Müller, constellation 0 BPSK, 1 QPSK and 2 8-PSK, the number the one it
//      is refused with, or 0
//   u  the same without naming the constellation, whose place is 0
//   z  resets
//   p  phase: sets it
//   j  count: the record with this symbol count
//   x  count, nothing, number: converts the record to one whose count has 32 bits, which has this count, and back; or
//      the count is 0 and the number 100, "too large", and the record stays
//   i  three samples, which go behind the input so far
//   r  f32 of input + 2^16 f32 of strobe buffer + 2^32 f32 of output, consumed + 2^32 produced, number:
//      runs
//   t  the next six f32 of the strobe buffer, with the filling behind what was lent
//   o  the next six f32 of the output, likewise
//   m  sample, constellation, symbol number, or ff where it is none
//   a, b, k, s, h, y, f   the timing state, as `replay_states` has them
//   d  loop bandwidth, damping, maximum offset   of the carrier state
//   g  kp, ki, the limit
//   w  phase, frequency as the f32 that it is, the reading of it
//   l  lock level, locked, constellation
//   q  symbol count, instant, pace: the receiver's readings
//   e  frequency, lock level, phase + 2^32 locked + 2^33 constellation: its other readings
#![tactic(auto)]

mod convert;
mod counts;
mod first;
mod second;
mod set_up;
mod symbols;
mod turned;
mod workspace;

use answers::Operation;
use first::Played;
use replay::Player;
use replay::tally::Tally;
use turned::{Turns, next_turns};
use workspace::Workspace;

// The receiver of the lines, the turned one beside it, and by how much that is turned; and the buffers of the first.
#[derive(Clone, Copy)]
struct Pair {
    first: Played,
    second: Played,
    turns: Turns,
    work: Workspace,
}

impl Player for Pair {
    fn play(&mut self, rt: &impl Print, op: Operation, line: &[u8], tally: &mut Tally) {
        let agrees = self.work.play(op);
        let agrees = self.first.play(op, &mut self.work, agrees);
        self.turns = next_turns(self.turns, op);
        let turned = self
            .second
            .play_turned(&self.first, op, self.turns, &mut self.work);
        counts::count(rt, tally, line, op.letter, agrees, turned);
    }

    // Damages the operation, or turns the second receiver otherwise.
    fn damage_keeping_letter(&mut self, op: Operation, turn: u64) -> Operation {
        self.turns = turned::other(self.turns, turn);
        turned::altered(op, turn)
    }
}

// Some receiver is there before the first line sets up its own. Were it refused, the counts would say that no line was
// played.
fn main(rt: HostRuntime) {
    match set_up::some() {
        Ok(r) => {
            let pair = Pair {
                first: Played::on(r),
                second: Played::on(r),
                turns: Turns::default(),
                work: Workspace::new(),
            };
            replay::replay(&rt, pair, &counts::KINDS);
        }
        Err(_) => Tally::new().show(&rt, &counts::KINDS, &Tally::of_damaged()),
    }
}
