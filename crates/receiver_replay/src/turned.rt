// Turned recordings: the input of the second receiver, and how the two receivers compare after a run.
ghost use Rattle.std.specs.Prelude.{◌≡◌};

use crate::workspace::Workspace;
use answers::{HIGH, Operation, alike};
use receiver::Receiver;
use values::{C32, sample_at, store_sample};

// The samples of a buffer.
const SAMPLES: usize = 96;

// A quarter turn of a phase.
const QUARTER: u64 = HIGH / 4;

// Quarter turns: those of the second receiver's samples, and those that its phase is on.
#[derive(Clone, Copy, Default)]
pub(crate) struct Turns {
    pub samples: u64,
    pub phase: u64,
}

// The turns from this line on: a set-up names them.
pub(crate) fn next_turns(turns: Turns, op: Operation) -> Turns {
    match op.letter {
        b'n' | b'u' => Turns {
            samples: op.answer / 0x100 % 4,
            phase: op.answer / 0x400 % 4,
        },
        _ => turns,
    }
}

// The operation, damaged at every other turn.
pub(crate) fn altered(op: Operation, turn: u64) -> Operation
    ensures { result.letter ≡ op.letter }
{
    if turn % 2 == 0 {
        return answers::damaged(op, turn / 2);
    }
    op
}

// The turns, with one more of the samples or of the phase at the turns that leave the operation alone.
pub(crate) fn other(turns: Turns, turn: u64) -> Turns {
    match turn % 4 {
        1 => Turns {
            samples: (turns.samples % 4 + 1) % 4,
            ..turns
        },
        3 => Turns {
            phase: (turns.phase % 4 + 1) % 4,
            ..turns
        },
        _ => turns,
    }
}

// Q1: the sample after so many quarter turns.
fn turned(z: C32, turns: u64) -> C32 {
    match turns {
        0 => z,
        1 => C32 {
            re: -z.im,
            im: z.re,
        },
        2 => C32 {
            re: -z.re,
            im: -z.im,
        },
        _ => C32 {
            re: z.im,
            im: -z.re,
        },
    }
}

// Q2: the phase after so many quarter turns.
pub(crate) fn phase_on(phase: u64, turns: u64) -> u64 {
    (phase % HIGH + turns % 4 * QUARTER) % HIGH
}

// Turns all samples of a buffer.
pub(crate) fn turn_all(input: &mut [f32; 192], turns: u64) {
    for j in 0..SAMPLES {
        let z = sample_at(input, j);
        store_sample(input, j, turned(z, turns));
    }
}

// N10: whether two samples are alike.
fn samples_alike(v: C32, z: C32) -> bool {
    alike(v.re, z.re) && alike(v.im, z.im)
}

// Q8: whether so many samples of the second buffer are the first's, turned, and all behind them the same.
fn samples_turned(first: &[f32; 192], second: &[f32; 192], produced: u64, turns: u64) -> bool {
    for j in 0..SAMPLES {
        let k = if (j as u64) < produced { turns } else { 0 };
        if !samples_alike(sample_at(second, j), turned(sample_at(first, j), k)) {
            return false;
        }
    }
    true
}

// Whether the strobe buffers and the outputs of a run agree.
pub(crate) fn buffers_turned(
    op: Operation,
    work: &Workspace,
    other_strobes: &[f32; 192],
    other_output: &[f32; 192],
    turns: Turns,
) -> bool {
    let produced = op.y / HIGH;
    let less = (turns.samples % 4 + 4 - turns.phase % 4) % 4;
    samples_turned(&work.strobes.output, other_strobes, produced, turns.samples)
        && samples_turned(&work.samples.output, other_output, produced, less)
}

// Q7: whether the records agree but for the phases, which are turns apart.
pub(crate) fn records_turned(a: Receiver, b: Receiver, turns: u64) -> bool {
    receiver::count(a) == receiver::count(b)
        && alike(receiver::next_strobe(a), receiver::next_strobe(b))
        && alike(receiver::sps_estimate(a), receiver::sps_estimate(b))
        && alike(receiver::frequency(a), receiver::frequency(b))
        && alike(receiver::lock_level(a), receiver::lock_level(b))
        && receiver::locked(a) == receiver::locked(b)
        && receiver::phase(b) as u64 == phase_on(receiver::phase(a) as u64, turns)
}
