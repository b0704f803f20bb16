// Two slices, compared place by place. Words are compared by `==`, which is equality for them.
ghost use Rattle.std.specs.Prelude.{◌≡◌};
ghost use Rattle.answers.specs.Slices.{same_floats, same_words};

use crate::compare::same;

// Whether they are equally long and agree at every place, bit for bit, with NaN for NaN.
pub fn same_floats(a: &[f32], b: &[f32]) -> bool
    ensures { result ≡ same_floats a.now b.now }
{
    a.len() == b.len() && a.iter().zip(b).all(|(x, y)| same(*x, *y))
}

// Bytes. Kept as a loop that counts: an edit lets it pass over every other byte, and a fact refuses that. Of `==` and of
// the iterators' comparisons the right form is refused there too (tried).
pub fn same_bytes(a: &[u8], b: &[u8]) -> bool
    ensures { result ≡ same_words a.now b.now }
{
    if a.len() != b.len() {
        return false;
    }
    let mut k = 0;
    while k < a.len() {
        if a[k] != b[k] {
            return false;
        }
        k += 1;
    }
    true
}
