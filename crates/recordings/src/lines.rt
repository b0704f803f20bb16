// Digits in lines of 64, whatever parts they come in.
ghost use Rattle.std.specs.Prelude.{◌≡◌, min, length};
ghost use Rattle.std.proofs.lemmas.List.Edits.{sets};
ghost use Rattle.recordings.specs.Text.{lined};

use crate::text::put;

// How many digits a line has.
pub const WIDTH: u64 = 64;

// The place of the last.
const LAST: u64 = 63;

// P8: writes the digits into the front of the text, as far as it has places, with a line end behind the last
// one of each line; `before` digits were written already. Answers how many bytes it wrote.
pub fn write_lines(before: u64, digits: &[u8], text: &mut [u8]) -> usize
    ensures count { result ≡ min (length (lined before digits.now)) (length text.old) }
    ensures text { text.new ≡ sets text.old 0 (lined before digits.now) }
{
    let mut column = before % WIDTH;
    let mut count = 0;
    for digit in digits {
        put(text, count, *digit);
        if column == LAST {
            put(text, count + 1, b'\n');
            count += 2;
            column = 0;
        } else {
            count += 1;
            column += 1;
        }
    }
    count.min(text.len())
}
