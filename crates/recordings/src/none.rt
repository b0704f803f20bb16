// How many symbols read none.
ghost use Rattle.std.specs.Prelude.{◌≡◌, take};
ghost use Rattle.values.specs.Samples.{samples};
ghost use Rattle.recordings.specs.None.{none_after, none_with};

use values::C32;

// The count with one symbol more.
fn count(before: u64, y: C32) -> u64
    ensures { result ≡ none_after before y }
{
    if symbol_numbers::is_none(y) {
        return values::counted(before, 1);
    }
    before
}

// P8: the count with the first n samples of an output, as far as it has them.
pub fn none_with(before: u64, output: &[f32], n: usize) -> u64
    ensures { result ≡ none_with before (take n (samples output.now)) }
{
    let end = n.min(output.len() / 2);
    let mut none = before;
    for k in 0..end {
        none = count(none, values::sample_at(output, k));
    }
    none
}
