// Two ways in which a computed float agrees with a recorded one.
ghost use Rattle.std.specs.Prelude.{◌≡◌, ◌==◌, to_bits};
ghost use Rattle.ieee.specs.Alike.{same_number};

use patterns::{Binary, bits_of};

// Whether x and y have the same bits or are both NaN. The two zeros differ.
pub fn same<T: Binary>(x: T, y: T) -> bool
    ensures { result ≡ (to_bits T.format (T.value x) == to_bits T.format (T.value y)) }
{
    bits_of(x) == bits_of(y)
}

// N10: whether x and y are the same number, the two zeros alike, or both NaN.
pub fn alike<T: Binary>(x: T, y: T) -> bool
    ensures { result ≡ same_number (T.value x) (T.value y) }
{
    if x == y {
        true
    } else if x != x {
        y != y
    } else {
        false
    }
}
