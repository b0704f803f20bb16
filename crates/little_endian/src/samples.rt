// The complex samples of a recording, real part first, each part an f32 in four little-endian bytes.
ghost use Rattle.std.specs.Prelude.{◌≡◌, length};
ghost use Rattle.little_endian.specs.Samples.{whole_samples, read, stored_bytes};

use crate::bytes::{f32_at, store_f32};

// How many whole samples there are in so many bytes and so many f32.
fn whole(bytes: usize, parts: usize) -> usize
    ensures { result ≡ whole_samples bytes parts }
{
    (bytes / 8).min(parts / 2)
}

// P1: reads as many samples as the bytes have whole and the slice has places for, into the front of the
// slice. Answers how many.
pub fn read_samples(bytes: &[u8], samples: &mut [f32]) -> usize
    ensures count { result ≡ whole_samples (length bytes.now) (length samples.old) }
    ensures samples { samples.new ≡ read bytes.now samples.old }
{
    let n = whole(bytes.len(), samples.len());
    let end = 2 * n;
    for k in 0..end {
        samples[k] = f32_at(bytes, k);
    }
    n
}

// No heap is allowed, so the samples go into the caller's buffer, and how many they are is answered.
// Writes as many samples as the slice has whole and the bytes have places for, into the front of the
// bytes. Answers how many. A NaN's bytes are those of 7fc00000.
pub fn write_samples(samples: &[f32], bytes: &mut [u8]) -> usize
    ensures count { result ≡ whole_samples (length bytes.old) (length samples.now) }
    ensures bytes { bytes.new ≡ stored_bytes samples.now bytes.old }
{
    let n = whole(bytes.len(), samples.len());
    let end = 2 * n;
    for k in 0..end {
        store_f32(bytes, k, samples[k]);
    }
    n
}
