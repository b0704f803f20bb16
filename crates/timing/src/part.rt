// Arithmetic of one part of a sample, in f32.
ghost use Rattle.std.specs.Prelude.{◌≡◌};
ghost use Rattle.timing.specs.Part.{interpolated};

// 1/3, 1/2 and 1/6, each rounded once.
const THIRD: f32 = 0.33333334;

const HALF: f32 = 0.5;

const SIXTH: f32 = 0.16666667;

// T8: cubic Lagrange interpolation mu after x0, from four samples in a row.
pub(crate) fn interp1(xm1: f32, x0: f32, x1: f32, x2: f32, mu: f32) -> f32
    ensures { result ≡ interpolated xm1 x0 x1 x2 mu }
{
    let c1 = ((-(xm1 * THIRD) - x0 * HALF) + x1) - x2 * SIXTH;
    let c2 = (xm1 * HALF - x0) + x1 * HALF;
    let c3 = ((-(xm1 * SIXTH) + x0 * HALF) - x1 * HALF) + x2 * SIXTH;
    ((c3 * mu + c2) * mu + c1) * mu + x0
}
