// The lock measure and the lock detector, from kernels/costas.rs and fallback/costas.rs. In f32, one
// rounding each.
ghost use Rattle.std.specs.Prelude.{◌≡◌};
ghost use Rattle.detectors.specs.Lock.{bpsk_measure, qpsk_measure, psk8_measure, measured, metric_of, lock_after, watched};

use constellations::CostasConstellation;
use values::C32;

// The lock detector.
#[repr(C)]
#[derive(Clone, Copy, Default)]
pub struct Lock {
    // Smoothed lock measure.
    pub level: f32,
    pub locked: bool,
}

// The smoothing factor of the lock detector.
const LOCK_ALPHA: f32 = 0.01;

// The lock detector turns on above this level.
const LOCK_ON: f32 = 0.5;

// The lock detector turns off below this level.
const LOCK_OFF: f32 = 0.3;

// cos(2 arg y).
fn measure2(y: C32) -> f32
    ensures { result ≡ bpsk_measure y }
{
    let a = y.re * y.re;
    let b = y.im * y.im;
    (a - b) / (a + b)
}

// -cos(4 arg y).
fn measure4(y: C32) -> f32
    ensures { result ≡ qpsk_measure y }
{
    let a = y.re * y.re;
    let b = y.im * y.im;
    let t = a + b;
    let g = a - b;
    ((4.0 * a) * b - g * g) / (t * t)
}

// cos(8 err) against the point d, by the polynomial 8 u^4 - 8 u^2 + 1 of u = cos(2 err).
fn measure8(y: C32, d: C32) -> f32
    ensures { result ≡ psk8_measure y d }
{
    let a = y.re * y.re;
    let b = y.im * y.im;
    let t = a + b;
    let r = y.re * d.re + y.im * d.im;
    let u = ((r * r) / t) * 2.0 - 1.0;
    let w = u * u;
    ((8.0 * w) * (w - 1.0)) + 1.0
}

// The measure of y with the point d; it may not be finite.
fn measure(constellation: CostasConstellation, y: C32, d: C32) -> f32
    ensures { result ≡ measured constellation y d }
{
    match constellation {
        CostasConstellation::Bpsk => measure2(y),
        CostasConstellation::Qpsk => measure4(y),
        CostasConstellation::Psk8 => measure8(y, d),
    }
}

// C19: the lock measure of y with the point d; none where it is not finite (silence, NaN, overflow).
pub fn lock_metric(constellation: CostasConstellation, y: C32, d: C32) -> Option<f32>
    ensures { result ≡ metric_of constellation y d }
{
    let c = measure(constellation, y, d);
    if numbers::is_finite(c) { Some(c) } else { None }
}

// C20: whether there is lock at this level, where there was before or not.
fn hold(was: bool, level: f32) -> bool
    ensures { result ≡ lock_after was level }
{
    if level > LOCK_ON {
        true
    } else if level < LOCK_OFF {
        false
    } else {
        was
    }
}

// C20: the lock detector after the measure m. Without a measure it stays as it is.
pub fn watch(k: Lock, m: Option<f32>) -> Lock
    ensures { result ≡ watched k m }
{
    match m {
        Some(c) => {
            let level = numbers::flush_denormal(k.level + LOCK_ALPHA * (c - k.level));
            let locked = hold(k.locked, level);
            Lock {
                level: level,
                locked: locked,
            }
        }
        None => k,
    }
}
