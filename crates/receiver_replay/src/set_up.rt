// Setting a receiver up as the lines say.
ghost use Rattle.receiver.specs.Record.{SetUpGiven};

use crate::workspace::Workspace;
use answers::{Operation, of_bits};
use receiver::{CarrierValues, Receiver, TimingValues};
use timing::Ted;
use values::Refusal;

// The largest third word of a set-up.
const MOST: u64 = 0xfff;

// Some set-up.
pub(crate) fn some() -> Result<Receiver, Refusal>
    ensures { SetUpGiven result }
{
    let t = TimingValues {
        sps: 4.0,
        ted: Ted::Gardner,
        loop_bw: 0.01,
        damping: 0.7,
        max_deviation: 0.01,
        ted_gain: 1.0,
    };
    let c = CarrierValues {
        loop_bw: 0.01,
        damping: 0.7,
        max_offset: 0.1,
    };
    receiver::set_up_unnamed(t, c)
}

// What the `v` line before and this one ask for.
fn timing_values(words: [u64; 3], op: Operation) -> TimingValues {
    let [sps, loop_bw, damping] = words;
    TimingValues {
        sps: of_bits(sps),
        ted: plain::detector((op.answer % 2) as u32),
        loop_bw: of_bits(loop_bw),
        damping: of_bits(damping),
        max_deviation: of_bits(op.x),
        ted_gain: of_bits(op.y),
    }
}

// What the `c` line before asks for.
fn carrier_values(words: [u64; 3]) -> CarrierValues {
    let [loop_bw, damping, max_offset] = words;
    CarrierValues {
        loop_bw: of_bits(loop_bw),
        damping: of_bits(damping),
        max_offset: of_bits(max_offset),
    }
}

// What a set-up answers. The constellation's place is 0 in a line that names none.
pub(crate) fn answer(work: &Workspace, op: Operation) -> Result<Receiver, Refusal>
    ensures { SetUpGiven result }
{
    let t = timing_values(work.samples.set_up, op);
    let c = carrier_values(work.strobes.set_up);
    if op.letter == b'u' {
        receiver::set_up_unnamed(t, c)
    } else {
        receiver::set_up(plain::constellation((op.answer / 2 % 8) as u32), t, c)
    }
}

// The number that a set-up's line records. Kept in each of two programs: a shared function would need a contract and an
// edit for one expression.
pub(crate) fn number(op: Operation) -> u64 {
    op.answer / 16 % 16
}

// Whether the third word says no more than it may.
pub(crate) fn is_asked(op: Operation) -> bool {
    let code = op.answer / 2 % 8;
    if op.letter == b'u' {
        op.answer <= MOST && code == 0
    } else {
        op.answer <= MOST && code < 3
    }
}
