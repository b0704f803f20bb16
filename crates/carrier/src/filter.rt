// The loop filter and the oscillator's phase, from fallback/costas.rs.
ghost use Rattle.std.specs.Prelude.{◌≡◌};
ghost use Rattle.std.specs.Float.{binary32};
ghost use Rattle.ieee.specs.Notation.{zero₀};
ghost use Rattle.numbers.specs.Denormal.{flushed};
ghost use Rattle.numbers.specs.Range.{limited};
ghost use Rattle.detectors.specs.Detector.{calmed};
ghost use Rattle.carrier.specs.Filter.{advanced};

use crate::params::Params;
use modulate::TURN;
use numbers::TINY_F32;

// The oscillator.
#[repr(C)]
#[derive(Clone, Copy, Default)]
pub struct Nco {
    // Phase before the next symbol, in units of 2^-32 turn.
    pub phase: u32,
    // Frequency integrator in cycles per symbol.
    pub freq: f32,
}

// C17: the integrator `clamp(flush_denormal(t), -limit, limit)`. Inside the limit and above the flush
// threshold (the case of a running loop) it is t itself, after one branch that is predicted well.
pub(crate) fn integrate(t: f32, limit: f32) -> f32
    ensures { result ≡ limited (flushed binary32 t) limit }
{
    let a = constellations::size(t);
    if a <= limit && a >= TINY_F32 {
        return t;
    }
    numbers::limit(numbers::flush_denormal(t), limit)
}

// The oscillator after the finite error e.
fn steer(p: Params, n: Nco, e: f32) -> Nco
    ensures { result ≡ advanced p n e }
{
    let old = n.freq;
    let freq = integrate(old + p.ki * e, p.max);
    let step = modulate::phase_step_f32(freq + p.kp * e);
    Nco {
        phase: std::num::wrapping_add_u32(n.phase, step),
        freq: freq,
    }
}

// The same of the error 0. It is a function of its own: with 0 handed to `steer`, the choice of the error
// would lie on the dependency chain from symbol to symbol.
fn coast(p: Params, n: Nco) -> Nco
    ensures { result ≡ advanced p n zero₀ }
{
    let freq = numbers::limit(numbers::flush_denormal(n.freq + p.ki * 0.0f32), p.max);
    let step = modulate::phase_step(numbers::widen(freq + p.kp * 0.0f32), TURN);
    Nco {
        phase: std::num::wrapping_add_u32(n.phase, step),
        freq: freq,
    }
}

// C18: the oscillator after the detector's value e, which counts as 0 if it is not finite.
pub(crate) fn advance(p: Params, n: Nco, e: f32) -> Nco
    ensures { result ≡ advanced p n (calmed e) }
{
    if numbers::is_finite(e) {
        steer(p, n, e)
    } else {
        coast(p, n)
    }
}
