// The floor of an f64, which the original takes from `libm`.
ghost use Rattle.std.specs.Prelude.{◌≡◌, cond, T};
ghost use Rattle.std.specs.Float.Ieee.{neg, lt};
ghost use Rattle.ieee.specs.Notation.{zero₀, one₀};
ghost use Rattle.numbers.specs.Whole.{floored, far, Beside};

// 2^52: from here up an f64 has no fraction.
const FAR: f64 = 4_503_599_627_370_496.0;

// 1 where m lies above x, else 0. Whether it does is not predictable, so that no branch depends on it:
// this is a choice between two numbers. modulate's `up` is the same test as a u32, by a cast.
fn above(m: f64, x: f64) -> f64
    ensures { result ≡ cond (lt x m) one₀ zero₀ }
{
    if m > x { 1.0 } else { 0.0 }
}

// The floor of x, for |x| < 2^52, from one of the two whole numbers next to x, or x itself if it is
// whole.
fn mended(m: f64, x: f64) -> f64
    requires lower_bound { T (lt (neg far) x) }
    requires upper_bound { T (lt x far) }
    requires beside { Beside x m }
    ensures { result ≡ floored x }
{
    if m == x {
        return x;
    }
    m - above(m, x)
}

// N4: the floor of x. A NaN and an infinity come back as they are, and a zero with its sign.
// Below 2^52 in size, 2^52 added and taken off again leaves a whole number less than 1 away from x.
// Each sign has its own branch, which costs less than a choice between two sums.
pub fn floor(x: f64) -> f64
    ensures { result ≡ floored x }
{
    if x > -FAR && x < FAR {
        if x < 0.0 {
            return mended((x - FAR) + FAR, x);
        }
        return mended((x + FAR) - FAR, x);
    }
    x
}
