// The fields of a float's bit pattern, from the top: the sign, the exponent's field, and the digits
// behind a leading one that is left out. Both widths stand side by side: `narrow` and `widen` read the one
// and write the other.

// The sign's bit.
pub(crate) const SIGN_F32: u64 = 0x8000_0000;

pub(crate) const SIGN_F64: u64 = 0x8000_0000_0000_0000;

// The place of the leading one, just above the digits: the exponent's field counts from there.
pub(crate) const LEADING_F32: u64 = 0x80_0000;

pub(crate) const LEADING_F64: u64 = 0x10_0000_0000_0000;

// The pattern of the infinity: its field is all ones.
pub(crate) const INFINITY_F32: u64 = 0x7f80_0000;

pub(crate) const INFINITY_F64: u64 = 0x7ff0_0000_0000_0000;
