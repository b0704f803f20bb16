// Little-endian numbers, the least significant byte first, and f32 in four such bytes.
ghost use Rattle.std.specs.Prelude.{◌≡◌, ◌*◌, ◌/◌, ◌^◌, ◌<◌, length, get_or, take};
ghost use Rattle.std.proofs.lemmas.List.Edits.{sets};
ghost use Rattle.std.specs.Float.{binary32};
ghost use Rattle.std.specs.Float.Ieee.{to_bits};
ghost use Rattle.ieee.specs.Notation.{zero₀};
ghost use Rattle.little_endian.specs.Bytes.{little_endian, bytes_of};
ghost use Rattle.little_endian.specs.Samples.{floats, double_at};

// The number that the first eight bytes spell; where there are fewer, those that are missing are zero.
pub fn little_endian(bytes: &[u8]) -> u64
    ensures value { result ≡ little_endian (take 8 bytes.now) }
    ensures below { result < 256 ^ length bytes.now }
{
    let end = bytes.len().min(8);
    let mut value: u64 = 0;
    for b in bytes[..end].iter().rev() {
        value = *b as u64 + 0x100 * value;
    }
    value
}

// The f64 that stands in the eight bytes from a place on; those that are missing are zero.
pub fn f64_at(bytes: &[u8], from: usize) -> f64
    ensures { result ≡ double_at bytes.now from }
{
    let at = from.min(bytes.len());
    patterns::of_bits(little_endian(&bytes[at..]))
}

// The f32 number k of the bytes.
pub(crate) fn f32_at(bytes: &[u8], k: usize) -> f32
    requires { k < length bytes.now / 4 }
    ensures { result ≡ get_or (floats bytes.now) k zero₀ }
{
    let from = 4 * k;
    let to = from + 4;
    patterns::of_bits(little_endian(&bytes[from..to]) as u32)
}

// Stores x as the f32 number k of the bytes.
pub(crate) fn store_f32(bytes: &mut [u8], k: usize, x: f32)
    requires { k < length bytes.old / 4 }
    ensures { bytes.new ≡ sets bytes.old (4 * k) (bytes_of 4 (to_bits binary32 x)) }
{
    let at = 4 * k;
    bytes[at..at + 4].copy_from_slice(&patterns::bits_of(x).to_le_bytes());
}
