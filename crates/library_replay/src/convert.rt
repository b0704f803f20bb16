// The record with another count, and the conversions that the library exports.
ghost use Rattle.plain_receiver.specs.Receiver.{Given};

use answers::{Operation, words_agree};
use plain_receiver::Receiver;
use train_receiver::{trr_receiver_narrow, trr_receiver_widen};

// The record with another count: no run of a replay comes near the old top, or the new one.
pub(crate) fn with_count(r: Receiver, count: u64) -> Receiver
    requires { Given r }
    ensures { Given result }
{
    Receiver { count, ..r }
}

// The record converted down and up again, or as it was where its count is too large.
pub(crate) fn convert(r: Receiver) -> Receiver
    requires { Given r }
    ensures { Given result }
{
    let narrowed = trr_receiver_narrow(r);
    if narrowed.number > 0 {
        return r;
    }
    trr_receiver_widen(narrowed.receiver)
}

// Whether the conversion down has the count and the number that the line records.
pub(crate) fn conversion_agrees(r: Receiver, op: Operation) -> bool {
    let narrowed = trr_receiver_narrow(r);
    words_agree(
        narrowed.receiver.count as u64,
        0,
        narrowed.number as u64,
        op,
    )
}
