// Playing one line.
use crate::asked::Asked;
use crate::convert::conversion_agrees;
use crate::counts::KINDS;
use crate::held::{Held, set_up, set_up_agrees};
use crate::readings::{readings_agree, symbol_agrees};
use crate::run::Six;
use answers::{HIGH, Operation, words_agree};
use replay::Player;
use replay::tally::Tally;

// What the lines ask for, the receiver once a set-up was accepted, and what the last call left in the buffers.
#[derive(Clone, Copy)]
pub(crate) struct Calls {
    asked: Asked,
    held: Option<Held>,
    strobes: Six,
    output: Six,
}

fn six_agree(six: Six, op: Operation) -> bool {
    words_agree(six.x, six.y, six.z, op)
}

impl Calls {
    // Before the first line.
    pub(crate) fn new() -> Self {
        Calls {
            asked: crate::asked::nothing(),
            held: None,
            strobes: Six::default(),
            output: Six::default(),
        }
    }

    // Sets up anew. A refused set-up leaves no receiver.
    fn set_up(&mut self, op: Operation) -> bool {
        self.held = set_up(self.asked, op);
        set_up_agrees(self.asked, op)
    }

    // Resets the receiver, sets its count or its phase, or converts its record, if there is one.
    fn change(&mut self, op: Operation) {
        if let Some(held) = &mut self.held {
            held.change(op);
        }
    }

    // Calls, if there is a receiver.
    fn run(&mut self, op: Operation) -> bool {
        match &mut self.held {
            None => {
                self.strobes = Six::default();
                self.output = Six::default();
                false
            }
            Some(held) => {
                let left = held.run(self.asked.input, op);
                self.strobes = left.strobes;
                self.output = left.output;
                left.agrees
            }
        }
    }

    // Kept as a match: the letters are the file's, and each line asks something else.
    // Plays an operation, and says whether it agrees. No reading or conversion does where there is no receiver.
    fn agrees(&mut self, op: Operation) -> bool {
        match op.letter {
            b'v' => {
                self.asked.timing = op;
                true
            }
            b'c' => {
                self.asked.carrier = op;
                true
            }
            b'i' => {
                self.asked.input = op;
                true
            }
            b'j' => {
                self.change(op);
                true
            }
            b'n' | b'u' => self.set_up(op),
            b'r' => self.run(op),
            b'z' => {
                self.change(op);
                words_agree(0, 0, 0, op)
            }
            b'p' => {
                self.change(op);
                words_agree(op.x % HIGH, 0, 0, op)
            }
            b'x' => {
                let before = self.held;
                self.change(op);
                before.is_some_and(|held| conversion_agrees(held.receiver, op))
            }
            b't' => six_agree(self.strobes, op),
            b'o' => six_agree(self.output, op),
            b'm' => symbol_agrees(op),
            b'a' | b'b' | b'd' | b'q' | b'e' => self
                .held
                .is_some_and(|held| readings_agree(held.receiver, op)),
            _ => false,
        }
    }
}

impl Player for Calls {
    fn play(&mut self, rt: &impl Print, op: Operation, line: &[u8], tally: &mut Tally) {
        let agrees = self.agrees(op);
        tally.count_line(rt, KINDS.place(op.letter), line, agrees);
    }
}
