// Symbol numbers (R16), and the code for none (L11).
use answers::{Operation, high, low, words_agree};
use values::C32;

// Whether a line with the number of a symbol is right. Of any other line it says what was known.
pub(crate) fn symbol_agrees(op: Operation, known: bool) -> bool {
    if op.letter != b'm' {
        return known;
    }
    if op.y > 2 {
        return false;
    }
    let y = C32 {
        re: high(op.x),
        im: low(op.x),
    };
    let number = receiver::symbol_number(plain::constellation(op.y as u32), y);
    words_agree(op.x, op.y, plain::symbol_code(number) as u64, op)
}
