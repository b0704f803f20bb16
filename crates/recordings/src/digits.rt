// Symbols as digits.
ghost use Rattle.std.specs.Prelude.{◌≡◌, min, length};
ghost use Rattle.std.proofs.lemmas.List.Edits.{sets};
ghost use Rattle.recordings.specs.Text.{digit_of, digits};

use crate::text::put;
use carrier::CostasConstellation;
use values::C32;

const ZERO: u8 = b'0';

const NONE: u8 = b'-';

// The digit of an output sample's symbol number, in ASCII; a minus sign where it is none.
fn digit(constellation: CostasConstellation, y: C32) -> u8
    ensures { result ≡ digit_of constellation y }
{
    match symbol_numbers::symbol_number(constellation, y) {
        Some(n) => ZERO + (n as u8),
        None => NONE,
    }
}

// P8: writes the digits of the first n samples of an output into the front of the text, as far as it has
// places. Answers how many.
pub fn write_digits(
    constellation: CostasConstellation,
    output: &[f32],
    n: usize,
    text: &mut [u8],
) -> usize
    ensures count { result ≡ min (length (digits constellation output.now n)) (length text.old) }
    ensures text { text.new ≡ sets text.old 0 (digits constellation output.now n) }
{
    let end = n.min(output.len() / 2);
    for k in 0..end {
        let y = values::sample_at(output, k);
        put(text, k, digit(constellation, y));
    }
    end.min(text.len())
}
