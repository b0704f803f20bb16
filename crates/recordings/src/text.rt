// A text in a buffer. No heap is allowed here, so a text is put together in the caller's bytes, and how many were written
// is counted beside them.
ghost use Rattle.std.specs.Prelude.{◌≡◌, slice_set};

// Stores b at place k; past the last one nothing is stored.
pub(crate) fn put(text: &mut [u8], k: usize, b: u8)
    ensures { text.new ≡ slice_set text.old k b }
{
    // Kept as a test and an index: of a slice's get_mut a proof knows no element afterwards.
    if k < text.len() {
        text[k] = b;
    }
}
