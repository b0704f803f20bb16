// Comparing the readings of a receiver with a line.
use answers::{Operation, bits_of, floats_agree, high, low, words_agree};
use plain_receiver::Receiver;
use plain_timing::TimingReadings;
use train_receiver::{CarrierReadings, trr_receiver_readings, trr_symbol_number};

// Kept as a match: the letters are the file's.
fn timing_agrees(t: TimingReadings, count: u64, op: Operation) -> bool {
    match op.letter {
        b'a' => floats_agree(t.values.sps, t.values.loop_bw, t.values.damping, op),
        b'b' => words_agree(
            bits_of(t.values.max_deviation),
            bits_of(t.values.ted_gain),
            t.values.ted as u64,
            op,
        ),
        b'q' => words_agree(count, bits_of(t.next_strobe), bits_of(t.sps_estimate), op),
        _ => false,
    }
}

fn carrier_agrees(c: CarrierReadings, op: Operation) -> bool {
    if op.letter == b'd' {
        return floats_agree(c.values.loop_bw, c.values.damping, c.values.max_offset, op);
    }
    let flags = op.answer / 0x1_0000_0000;
    bits_of(c.frequency) == op.x
        && bits_of(c.lock_level) as u64 == op.y
        && c.phase as u64 == op.answer % 0x1_0000_0000
        && c.locked == (flags % 2 == 1)
        && c.constellation as u64 == flags / 2
}

// Whether a reading of a receiver agrees.
pub(crate) fn readings_agree(r: Receiver, op: Operation) -> bool {
    let readings = trr_receiver_readings(r);
    match op.letter {
        b'd' | b'e' => carrier_agrees(readings.carrier, op),
        _ => timing_agrees(readings.timing, readings.count, op),
    }
}

// Whether the number of a symbol is right.
pub(crate) fn symbol_agrees(op: Operation) -> bool {
    let code = (op.y % 0x1_0000_0000) as u32;
    let number = trr_symbol_number(code, high(op.x), low(op.x));
    words_agree(op.x, code as u64, number as u64, op)
}
