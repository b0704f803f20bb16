// Playing line after line.
ghost use Rattle.std.specs.Prelude.{◌≡◌};
ghost use Rattle.replay.specs.Tally.{Tallied, Replayed};

use crate::LINES;
use crate::input::read_full;
use crate::kinds::Kinds;
use crate::tally::Tally;
use answers::Operation;
use std::io::{Input, Read};

// How many bytes a line has.
const LINE: usize = 53;

// What lines are played on. A damaged line is played on a copy of it.
pub trait Player: Copy {
    // Plays an operation, and counts it.
    fn play(&mut self, rt: &impl Print, op: Operation, line: &[u8], tally: &mut Tally)
        ensures { Tallied 1 tally.old tally.new };

    // The operation with something altered, in it or in what it is played on, another way at each turn. No clause: one
    // who writes it proves nothing.
    fn damage(&mut self, op: Operation, turn: u64) -> Operation {
        answers::damaged(op, turn)
    }

    // The same under the operation's own letter, so that it is counted at the same place.
    fn damage_keeping_letter(&mut self, op: Operation, turn: u64) -> Operation
        ensures { result.letter ≡ op.letter }
    {
        let altered = self.damage(op, turn);
        Operation {
            letter: op.letter,
            ..altered
        }
    }

    // Plays a line, first damaged, which must be counted as differing and has no other effect, and then as it is.
    fn play_line(&mut self, rt: &impl Print, line: &[u8], tally: &mut Tally, damaged: &mut Tally)
        ensures { Tallied 1 tally.old tally.new }
    {
        let op = answers::read_operation(line);
        let mut other = *self;
        let wrong = other.damage_keeping_letter(op, damaged.played());
        other.play(rt, wrong, b"", damaged);
        self.play(rt, op, line, tally);
    }
}

// Plays line after line, up to the end of the input, and says how many. What is left there after the last whole line
// counts as a line too. The tallies stay two parameters: they go together here and in `play_line` alone.
pub fn play_lines<P: Player>(
    rt: &impl Print,
    reader: &mut impl Read,
    player: &mut P,
    tally: &mut Tally,
    damaged: &mut Tally,
) -> u64
    ensures { Tallied result tally.old tally.new }
{
    for count in 0..LINES {
        let mut line = [0u8; LINE];
        let n = read_full(reader, &mut line);
        if n == 0 {
            return count;
        }
        player.play_line(rt, &line[..n], tally, damaged);
    }
    LINES
}

// Plays all lines of standard input, writes the counts, and answers those of the lines.
pub fn replay<R: Print + Input, P: Player>(rt: &R, mut player: P, kinds: &Kinds) -> Tally
    ensures { Replayed result }
{
    let mut reader = rt.reader();
    let mut tally = Tally::new();
    let mut damaged = Tally::of_damaged();
    let lines = play_lines(rt, &mut reader, &mut player, &mut tally, &mut damaged);
    tally.too_long(rt, lines);
    tally.show(rt, kinds, &damaged);
    tally
}

#[cfg(test)]
mod tests {
    use super::*;

    // An operation under `b` is counted at the place that its answer names.
    fn count(op: Operation, tally: &mut Tally)
        ensures { Tallied 1 tally.old tally.new }
    {
        let place = if op.letter == b'b' {
            op.answer as usize
        } else {
            Tally::MALFORMED
        };
        tally.count(place, true);
    }

    // A player that leaves the damage to the trait.
    #[derive(Clone, Copy)]
    struct Plain;

    impl Player for Plain {
        fn play(&mut self, _rt: &impl Print, op: Operation, _line: &[u8], tally: &mut Tally) {
            count(op, tally);
        }
    }

    // A player with a damage of its own: another letter, the turn in the answer, and a shift of the counted places.
    #[derive(Clone, Copy)]
    struct Lettered {
        shift: u64,
    }

    impl Player for Lettered {
        fn play(&mut self, _rt: &impl Print, op: Operation, _line: &[u8], tally: &mut Tally) {
            let answer = op.answer.wrapping_add(self.shift);
            count(Operation { answer, ..op }, tally);
        }

        fn damage(&mut self, op: Operation, at: u64) -> Operation {
            self.shift = 1;
            Operation {
                letter: b'c',
                answer: at.wrapping_add(5),
                ..op
            }
        }
    }

    const RECORDED: &[u8] = b"b 0000000000000001 0000000000000002 0000000000000003\n";

    #[test]
    fn damage_left_to_the_trait_is_that_of_answers(rt: HostRuntime) {
        let recorded = answers::read_operation(RECORDED);
        for turn in 0..42 {
            let letter = [0, b'b', 0xff][turn as usize % 3];
            let op = Operation { letter, ..recorded };
            let wanted = answers::damaged(op, turn);
            for altered in [
                Plain.damage(op, turn),
                Plain.damage_keeping_letter(op, turn),
            ] {
                assert_eq!(rt; altered.letter, letter, "at {turn}");
                assert_eq!(rt; altered.x, wanted.x, "at {turn}");
                assert_eq!(rt; altered.y, wanted.y, "at {turn}");
                assert_eq!(rt; altered.answer, wanted.answer, "at {turn}");
            }
        }
    }

    #[test]
    fn damage_is_the_players_own(rt: HostRuntime) {
        let op = answers::read_operation(RECORDED);
        let mut player = Lettered { shift: 0 };
        assert_eq!(rt; player.damage(op, 0).letter, b'c');
        let altered = player.damage_keeping_letter(op, 0);
        assert_eq!(rt; altered.letter, b'b');
        assert_eq!(rt; altered.answer, 5);
        let mut player = Lettered { shift: 0 };
        let mut tally = Tally::new();
        let mut damaged = Tally::of_damaged();
        player.play_line(&rt, RECORDED, &mut tally, &mut damaged);
        player.play_line(&rt, RECORDED, &mut tally, &mut damaged);
        assert_eq!(rt; tally.places[3], 2);
        assert_eq!(rt; damaged.places[6], 1);
        assert_eq!(rt; damaged.places[7], 1);
    }
}
