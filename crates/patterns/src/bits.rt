// Floats and their bit patterns, a NaN's too.
ghost use Rattle.std.specs.Prelude.{◌≡◌};
ghost use Rattle.std.specs.Float.Ieee.{of_bits, to_bits};

use crate::binary::Binary;

// The float with these bits. Every pattern of a NaN gives a NaN.
pub fn of_bits<T: Binary>(bits: T::Bits) -> T
    ensures { T.value result ≡ of_bits T.format (T.Bits.number bits) }
{
    T::from_bits(bits)
}

// The bits of x. A NaN has one pattern, 7fc00000 of an f32 and 7ff8000000000000 of an f64.
pub fn bits_of<T: Binary>(x: T) -> T::Bits
    ensures { T.Bits.number result ≡ to_bits T.format (T.value x) }
{
    x.to_bits()
}
