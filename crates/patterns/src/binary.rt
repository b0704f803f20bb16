// What f32 and f64 share, and what their bits share: traits whose laws tie the operators to IEEE 754's on the
// floats that the values stand for, and to whole numbers.
ghost use Rattle.std.specs.Prelude.{◌≡◌, ◌==◌, ℕ, Float, refl};
ghost use Rattle.std.specs.Float.{Format, binary32, binary64};
ghost use Rattle.std.specs.Float.Ieee as Ieee;
ghost use Rattle.std.specs.Ordering.{partial_lt};
ghost use Rattle.ieee.specs.Notation.{zero₀};
ghost use Rattle.patterns.specs.Order.{float-below};

use std::ops::{Neg, Sub};

// The bits of a float, which stand for a whole number.
pub trait Pattern: Copy + Drop + PartialEq {
    ghost number: { Self → ℕ };

    // As a word of 64 bits.
    fn word(self) -> u64
        ensures { result ≡ number self };

    ghost eq_is: { (x y : Self) → Self.eq x y ≡ (number x == number y) };
}

impl Pattern for u32 {
    ghost number = { λ n. n };

    ghost eq_is = { λ x y. refl };

    fn word(self) -> u64 {
        self as u64
    }
}

impl Pattern for u64 {
    ghost number = { λ n. n };

    ghost eq_is = { λ x y. refl };

    fn word(self) -> u64 {
        self
    }
}

// A float of one format. A value stands for a float of the logic, as whose the operators act.
pub trait Binary: Copy + Drop + PartialOrd + Neg<Output = Self> + Sub<Output = Self> {
    type Bits: Pattern;

    const ZERO: Self;

    ghost ZERO: { Self };

    ghost format: { Format };

    ghost value: { Self → Float };

    // The float with these bits. Every pattern of a NaN gives a NaN.
    fn from_bits(bits: Self::Bits) -> Self
        ensures { value result ≡ Ieee.of_bits format (Self.Bits.number bits) };

    // The bits of a float, and one pattern for a NaN.
    fn to_bits(self) -> Self::Bits
        ensures { Self.Bits.number result ≡ Ieee.to_bits format (value self) };

    ghost zero_is: { value ZERO ≡ zero₀ };

    ghost eq_is: { (x y : Self) → Self.eq x y ≡ Ieee.eq (value x) (value y) };

    ghost lt_is: { (x y : Self) → partial_lt Self.partial_cmp x y ≡ Ieee.lt (value x) (value y) };

    ghost can_neg_all: { (x : Self) → Self.can_neg x };

    ghost neg_is: { (x r : Self) → Self.neg_gives x r → value r ≡ Ieee.neg (value x) };

    ghost can_sub_all: { (x y : Self) → Self.can_sub x y };

    ghost sub_is: { (x y r : Self) → Self.sub_gives x y r
        → value r ≡ Ieee.sub format (value x) (value y) };
}

impl Binary for f32 {
    type Bits = u32;

    const ZERO: f32 = 0.0;

    ghost ZERO = { zero₀ };

    ghost format = { binary32 };

    ghost value = { λ x. x };

    ghost zero_is = { refl };

    ghost eq_is = { λ x y. refl };

    ghost lt_is = { float-below };

    ghost can_neg_all = { λ x. tt };

    ghost neg_is = { λ x r h. h };

    ghost can_sub_all = { λ x y. tt };

    ghost sub_is = { λ x y r h. h };

    fn from_bits(bits: u32) -> f32 {
        std::num::f32_from_bits_with_nan(bits)
    }

    fn to_bits(self) -> u32 {
        std::num::f32_to_bits_with_nan(self)
    }
}

impl Binary for f64 {
    type Bits = u64;

    const ZERO: f64 = 0.0;

    ghost ZERO = { zero₀ };

    ghost format = { binary64 };

    ghost value = { λ x. x };

    ghost zero_is = { refl };

    ghost eq_is = { λ x y. refl };

    ghost lt_is = { float-below };

    ghost can_neg_all = { λ x. tt };

    ghost neg_is = { λ x r h. h };

    ghost can_sub_all = { λ x y. tt };

    ghost sub_is = { λ x y r h. h };

    fn from_bits(bits: u64) -> f64 {
        std::num::f64_from_bits_with_nan(bits)
    }

    fn to_bits(self) -> u64 {
        std::num::f64_to_bits_with_nan(self)
    }
}
