// Range tests of a set-up's values. An infinity and a NaN lie in no range.
ghost use Rattle.std.specs.Prelude.{◌≡◌};
ghost use Rattle.checks.specs.Range.{in_range, positive};

// A3: whether x is finite and lies in lo to hi, both ends included.
pub fn within(lo: f64, x: f64, hi: f64) -> bool
    ensures { result ≡ in_range lo x hi }
{
    numbers::is_finite(x) && lo <= x && x <= hi
}

// E5: whether x is finite and above 0.
pub fn above_zero(x: f64) -> bool
    ensures { result ≡ positive x }
{
    numbers::is_finite(x) && x > 0.0
}
