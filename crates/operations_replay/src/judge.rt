// Playing one operation, and comparing what comes out with the recorded answer.
use answers::{HIGH, Operation};
use mix::Pair;
use patterns::{Binary, Pattern};

// Whether the computed answer agrees with the recorded one. If not, the computed one's word.
#[derive(Clone, Copy)]
pub(crate) enum Verdict {
    Agrees,
    Differs(u64),
    Malformed,
}

// The low half of the word, as a phase.
fn phase(word: u64) -> u32 {
    (word % HIGH) as u32
}

// A float that a line records.
trait Recorded: Binary {
    // The one that the word stands for, if the word is not too wide for one.
    fn recorded(word: u64) -> Option<Self>;
}

impl Recorded for f32 {
    fn recorded(word: u64) -> Option<f32> {
        if word < HIGH {
            Some(answers::low(word))
        } else {
            None
        }
    }
}

impl Recorded for f64 {
    fn recorded(word: u64) -> Option<f64> {
        Some(answers::of_bits(word))
    }
}

// Bit for bit, with NaN for NaN.
fn exact<T: Recorded>(computed: T, answer: u64) -> Verdict {
    if T::recorded(answer).is_some_and(|recorded| answers::same(computed, recorded)) {
        return Verdict::Agrees;
    }
    Verdict::Differs(answers::bits_of(computed).word())
}

// Each of the two as exact compares it: the cosine with the high half of the answer, the sine
// with the low half.
fn exact_pair(computed: Pair, answer: u64) -> Verdict {
    if answers::same(computed.c, answers::high(answer))
        && answers::same(computed.s, answers::low(answer))
    {
        return Verdict::Agrees;
    }
    Verdict::Differs(answers::word(computed.c, computed.s))
}

// As a number: like exact, and a zero's sign does not matter.
fn number<T: Recorded>(computed: T, answer: u64) -> Verdict {
    if T::recorded(answer).is_some_and(|recorded| answers::alike(computed, recorded)) {
        return Verdict::Agrees;
    }
    Verdict::Differs(answers::bits_of(computed).word())
}

fn truth(computed: bool, answer: u64) -> Verdict {
    let word = computed as u64;
    if word == answer {
        return Verdict::Agrees;
    }
    Verdict::Differs(word)
}

// A phase step.
fn step(computed: u32, answer: u64) -> Verdict {
    if computed as u64 == answer {
        return Verdict::Agrees;
    }
    Verdict::Differs(computed as u64)
}

// Plays an operation whose arguments are f32 or a phase: words below 2^32.
fn judge_narrow(table: &[f32; 4097], op: Operation) -> Verdict {
    match op.letter {
        b'w' => exact(numbers::widen(answers::low(op.x)), op.answer),
        b's' => exact(numbers::flush_denormal(answers::low(op.x)), op.answer),
        b'l' => number(
            numbers::limit(answers::low(op.x), answers::low(op.y)),
            op.answer,
        ),
        b'i' => truth(numbers::is_finite(answers::low(op.x)), op.answer),
        b'p' => exact_pair(mix::interp_f32_pair(table, phase(op.x)), op.answer),
        b't' => step(modulate::phase_step_f32(answers::low(op.x)), op.answer),
        _ => Verdict::Malformed,
    }
}

// Kept as a match: the letters are the file's, and each function has other types.
// Plays the operation. A letter that names no function, and an argument too wide for an f32 or a
// phase, are malformed.
pub(crate) fn judge(table: &[f32; 4097], op: Operation) -> Verdict {
    match op.letter {
        b'f' => exact(numbers::floor(answers::of_bits(op.x)), op.answer),
        b'n' => exact(numbers::narrow(answers::of_bits(op.x)), op.answer),
        b'd' => exact(
            numbers::flush_denormal(answers::of_bits::<f64>(op.x)),
            op.answer,
        ),
        b'm' => number(
            numbers::limit(answers::of_bits::<f64>(op.x), answers::of_bits(op.y)),
            op.answer,
        ),
        b'j' => truth(numbers::is_finite(answers::of_bits::<f64>(op.x)), op.answer),
        b'u' => step(
            modulate::phase_step(answers::of_bits(op.x), answers::of_bits(op.y)),
            op.answer,
        ),
        _ => {
            if op.x < HIGH && op.y < HIGH {
                judge_narrow(table, op)
            } else {
                Verdict::Malformed
            }
        }
    }
}
