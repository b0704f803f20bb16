// The sign of a number, which both loops decide by.
ghost use Rattle.std.specs.Prelude.{◌≡◌};
ghost use Rattle.numbers.specs.Sign.{sign_of};

// N8: 1 above zero, -1 below, 0 for zero and NaN. Not `signum`, which gives 1 or -1 for a zero.
pub fn sign(x: f32) -> f32
    ensures { result ≡ sign_of x }
{
    if x > 0.0 {
        1.0
    } else if x < 0.0 {
        -1.0
    } else {
        0.0
    }
}
