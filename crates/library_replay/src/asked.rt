// What the lines say before a set-up or a call: the values of both loops, and the input.
use answers::{Operation, of_bits};
use plain_timing::TimingValues;
use receiver::CarrierValues;

// The last line of each kind.
#[derive(Clone, Copy)]
pub(crate) struct Asked {
    pub timing: Operation,
    pub carrier: Operation,
    pub input: Operation,
}

// Before the first line.
pub(crate) fn nothing() -> Asked {
    let line = Operation {
        letter: 0,
        x: 0,
        y: 0,
        answer: 0,
    };
    Asked {
        timing: line,
        carrier: line,
        input: line,
    }
}

// What the `v` line before and this one ask for.
pub(crate) fn timing_values(line: Operation, op: Operation) -> TimingValues {
    TimingValues {
        sps: of_bits(line.x),
        ted: (op.answer % 2) as u32,
        loop_bw: of_bits(line.y),
        damping: of_bits(line.answer),
        max_deviation: of_bits(op.x),
        ted_gain: of_bits(op.y),
    }
}

// What the `c` line before asks for.
pub(crate) fn carrier_values(line: Operation) -> CarrierValues {
    CarrierValues {
        loop_bw: of_bits(line.x),
        damping: of_bits(line.y),
        max_offset: of_bits(line.answer),
    }
}

// The code of the constellation that a set-up's line names.
pub(crate) fn code(op: Operation) -> u32 {
    (op.answer / 2 % 8) as u32
}

// The number that a set-up's line records. Kept in each of two programs: a shared function would need a contract and an
// edit for one expression.
pub(crate) fn number(op: Operation) -> u64 {
    op.answer / 16 % 16
}
