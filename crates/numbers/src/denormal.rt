// Flushing to zero, from num.rs.
ghost use Rattle.std.specs.Prelude.{◌≡◌, refl};
ghost use Rattle.numbers.specs.Denormal.{tiny, flushed};
ghost use Rattle.std.specs.Float.{binary32, binary64};

use patterns::Binary;

// The threshold, nearest in each width.
pub const TINY_F32: f32 = 1e-30;

// A float that can be flushed: its width has a threshold.
pub trait Flushed: Binary {
    const TINY: Self;

    ghost TINY: { Self };

    ghost tiny_is: { Self.value TINY ≡ tiny Self.format };
}

impl Flushed for f32 {
    const TINY: f32 = TINY_F32;

    ghost TINY = { tiny binary32 };

    ghost tiny_is = { refl };
}

impl Flushed for f64 {
    const TINY: f64 = 1e-30;

    ghost TINY = { tiny binary64 };

    ghost tiny_is = { refl };
}

// N3: returns 0.0 when |x| < 1e-30 (NaN is unchanged), otherwise x. By `<` alone, as limit.
pub fn flush_denormal<T: Flushed>(x: T) -> T
    ensures { T.value result ≡ flushed T.format (T.value x) }
{
    if -T::TINY < x && x < T::TINY {
        T::ZERO
    } else {
        x
    }
}
