// A recorded line, taken apart.
ghost use Rattle.std.specs.Prelude.{◌≡◌};
ghost use Rattle.answers.specs.Line.{asked, reading_of, spaced};

use crate::hex::read_word;
use crate::words::HIGH;

// What a line asks: the function's letter, the words of its arguments and of its answer.
#[derive(Clone, Copy)]
pub struct Operation {
    pub letter: u8,
    pub x: u64,
    pub y: u64,
    pub answer: u64,
}

// Whether three bytes are spaces and the last is a line end.
fn is_spaced(a: u8, b: u8, c: u8, end: u8) -> bool
    ensures { result ≡ spaced a b c end }
{
    a == b' ' && b == b' ' && c == b' ' && end == b'\n'
}

// Takes a line of 53 bytes apart.
pub fn read_line(line: &[u8]) -> Option<Operation>
    ensures { result ≡ reading_of line.now }
{
    if line.len() != 53 || !is_spaced(line[1], line[18], line[35], line[52]) {
        return None;
    }
    Some(Operation {
        letter: line[0],
        x: read_word(&line[2..18])?,
        y: read_word(&line[19..35])?,
        answer: read_word(&line[36..52])?,
    })
}

// What a malformed line asks: no letter, with which nothing agrees.
const NOTHING: Operation = Operation {
    letter: 0,
    x: 0,
    y: 0,
    answer: 0,
};

// What a line asks, or nothing.
pub fn read_operation(line: &[u8]) -> Operation
    ensures { result ≡ asked (reading_of line.now) }
{
    read_line(line).unwrap_or(NOTHING)
}

// The line with one place of its words altered, another one at each turn. In the answer that is the place of
// sixteen, where a set-up's word has its number, and two of its high half, where two flags stand.
pub fn damaged(op: Operation, turn: u64) -> Operation
    ensures { result.letter ≡ op.letter }
{
    let (x, y, answer) = match turn % 7 {
        0 => (0, 0, 0x10),
        1 => (1, 0, 0),
        2 => (HIGH, 0, 0),
        3 => (0, 1, 0),
        4 => (0, HIGH, 0),
        5 => (0, 0, HIGH),
        _ => (0, 0, 2 * HIGH),
    };
    Operation {
        letter: op.letter,
        x: op.x.wrapping_add(x),
        y: op.y.wrapping_add(y),
        answer: op.answer.wrapping_add(answer),
    }
}
