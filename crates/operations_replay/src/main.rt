// P6: replays recorded answers of the original, which stand on standard input: of its functions on numbers,
// its oscillator and its phase steps. Says how many were played of each function, and how many differ from
// what the crates `numbers`, `mix` (on the table of `tables`) and `modulate` compute.
//
// A line has 53 bytes: a letter, then three words of 16 hexadecimal digits, each after a space, and
// a line end. The words are the argument, the second argument or zeros, and the answer. An f32, a
// phase and a phase step have zeros before their bits, and a bool is 0 or 1. A pair is one word, the
// cosine's bits before the sine's.
#![tactic(auto)]

mod counts;
mod judge;

ghost use Rattle.replay.specs.Tally.{Tallied};

use answers::Operation;
use judge::Verdict;
use replay::Player;
use replay::tally::Tally;

// The operations, over the table that the oscillator reads.
#[derive(Clone, Copy)]
struct Operations<'a> {
    table: &'a [f32; 4097],
}

impl<'a> Player for Operations<'a> {
    fn play(&mut self, rt: &impl Print, op: Operation, line: &[u8], tally: &mut Tally) {
        match judge::judge(self.table, op) {
            Verdict::Agrees => counts::agrees(tally, op.letter),
            Verdict::Differs(computed) => counts::differs(rt, tally, op.letter, line, computed),
            Verdict::Malformed => counts::malformed(rt, tally, line),
        }
    }

    fn play_line(&mut self, rt: &impl Print, line: &[u8], tally: &mut Tally, damaged: &mut Tally) {
        play_line(rt, self, line, tally, damaged);
    }
}

// Plays a line, and once more damaged, which must be counted as differing. A malformed line is not damaged.
fn play_line(
    rt: &impl Print,
    operations: &mut Operations,
    line: &[u8],
    tally: &mut Tally,
    damaged: &mut Tally,
)
    ensures { Tallied 1 tally.old tally.new }
{
    let Some(op) = answers::read_line(line) else {
        counts::malformed(rt, tally, line);
        return;
    };
    operations.play(rt, op, line, tally);
    let op = answers::damaged(op, damaged.played());
    operations.play(rt, op, line, damaged);
}

// The table is taken once, and lent from here on.
fn main(rt: HostRuntime) {
    let table = tables::cos_f32_table();
    replay::replay(&rt, Operations { table: &table }, &counts::KINDS);
}
