// Whether there is something to receive in a recording.
ghost use Rattle.std.specs.Prelude.{◌≡◌};
ghost use Rattle.recordings.specs.Content.{finite_both, carries_any, seen, content_with};
ghost use Rattle.values.specs.Samples.{samples};

use values::C32;

#[derive(Clone, Copy)]
pub enum Content {
    // There are no samples.
    Empty,
    // Every sample is silent or not finite.
    Blank,
    // Some sample is finite and not silent.
    Signal,
}

// Whether both parts are finite.
fn is_finite(x: C32) -> bool
    ensures { result ≡ finite_both x }
{
    numbers::is_finite(x.re) && numbers::is_finite(x.im)
}

// Whether there is something to receive in a sample: it is finite and not silent.
fn carries(x: C32) -> bool
    ensures { result ≡ carries_any x }
{
    is_finite(x) && !symbol_numbers::is_silent(x)
}

// What a recording's samples are with one more.
fn see(before: Content, x: C32) -> Content
    ensures { result ≡ seen before x }
{
    if carries(x) {
        return Content::Signal;
    }
    match before {
        Content::Empty => Content::Blank,
        Content::Blank | Content::Signal => before,
    }
}

// P3: the same with all samples of a slice.
pub fn content_with(before: Content, input: &[f32]) -> Content
    ensures { result ≡ content_with before (samples input.now) }
{
    let mut content = before;
    for k in 0..input.len() / 2 {
        content = see(content, values::sample_at(input, k));
    }
    content
}
