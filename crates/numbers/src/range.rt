// Limits and finiteness: the original's `max` and `min`, `clamp` and `is_finite`.
ghost use Rattle.std.specs.Prelude.{◌≡◌};
ghost use Rattle.std.specs.Float.Ieee.Scale.{finite};
ghost use Rattle.numbers.specs.Range.{limited};

use patterns::Binary;

// N7: v limited to -limit .. limit. By `<` alone: for a type parameter that becomes one comparison, and `>` three.
pub fn limit<T: Binary>(v: T, limit: T) -> T
    ensures { T.value result ≡ limited (T.value v) (T.value limit) }
{
    if v < -limit {
        -limit
    } else if limit < v {
        limit
    } else {
        v
    }
}

// N9: whether x is neither a NaN nor an infinity: only then is x - x a number.
pub fn is_finite<T: Binary>(x: T) -> bool
    ensures { result ≡ finite (T.value x) }
{
    x - x == T::ZERO
}
