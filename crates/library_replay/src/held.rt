// The receiver that the lines are played on.
ghost use Rattle.std.specs.Prelude.{◌≡◌};
ghost use Rattle.plain_receiver.specs.Receiver.{Given};

use crate::asked::{Asked, carrier_values, code, number, timing_values};
use crate::{convert, loops};
use answers::{HIGH, Operation};
use plain_receiver::{Receiver, ReceiverSetUp};
use plain_timing::TimingValues;
use receiver::CarrierValues;
use train_receiver::{
    trr_receiver_readings, trr_receiver_reset, trr_receiver_set_phase, trr_receiver_set_up,
    trr_receiver_set_up_unnamed,
};

// A receiver that a call of the library has given.
#[derive(Clone, Copy)]
pub(crate) struct Held {
    pub receiver: Receiver,
    ghost given: { Given receiver },
}

// What the library answers to a set-up's line.
fn made(op: Operation, t: TimingValues, c: CarrierValues) -> ReceiverSetUp
    ensures { result.number ≡ 0 → Given result.receiver }
{
    if op.letter == b'u' {
        return trr_receiver_set_up_unnamed(t, c);
    }
    trr_receiver_set_up(code(op), t, c)
}

// A refused set-up gives no receiver.
fn held_of(answer: ReceiverSetUp) -> Option<Held>
    requires { answer.number ≡ 0 → Given answer.receiver }
{
    if answer.number == 0 {
        return Some(Held {
            receiver: answer.receiver,
        });
    }
    None
}

// Sets up anew.
pub(crate) fn set_up(asked: Asked, op: Operation) -> Option<Held> {
    let t = timing_values(asked.timing, op);
    let c = carrier_values(asked.carrier);
    held_of(made(op, t, c))
}

// Whether a set-up has the number that the line records, and the loops alone agree with it.
pub(crate) fn set_up_agrees(asked: Asked, op: Operation) -> bool {
    let t = timing_values(asked.timing, op);
    let c = carrier_values(asked.carrier);
    let answer = made(op, t, c);
    if answer.number as u64 != number(op) {
        return false;
    }
    if loops::number_of(code(op), t, c) != answer.number {
        return false;
    }
    if answer.number > 0 {
        return true;
    }
    let told = trr_receiver_readings(answer.receiver);
    loops::timing_agrees(t, told.timing) && loops::carrier_agrees(code(op), c, told.carrier)
}

impl Held {
    // Resets the receiver, sets its count or its phase, or converts its record.
    pub(crate) fn change(&mut self, op: Operation) {
        let r = self.receiver;
        // Kept as a match: the letters are the file's.
        self.receiver = match op.letter {
            b'z' => trr_receiver_reset(r),
            b'j' => convert::with_count(r, op.x),
            b'x' => convert::convert(r),
            _ => trr_receiver_set_phase(r, (op.x % HIGH) as u32),
        };
    }
}
