// Lines that convert a receiver's record down, and up again where that gives one.
ghost use Rattle.receiver.specs.Record.{Given};

use answers::{Operation, words_agree};
use receiver::Receiver;
use receiver_records::TooLarge;

// What a line has for "too large" (L13).
const TOO_LARGE: u64 = 100;

// The record after both conversions, or as it was where its count is too large.
pub(crate) fn convert(r: Receiver) -> Receiver
    requires { Given r }
    ensures { Given result }
{
    match receiver_records::narrow(r) {
        Ok(old) => receiver_records::widen(old),
        Err(TooLarge) => r,
    }
}

// Whether the conversion down has the count and the number that the line records.
pub(crate) fn conversion_agrees(r: Receiver, op: Operation) -> bool {
    match receiver_records::narrow(r) {
        Ok(old) => words_agree(old.count as u64, 0, 0, op),
        Err(TooLarge) => words_agree(0, 0, TOO_LARGE, op),
    }
}
