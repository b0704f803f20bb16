// The values of a set-up, and the gains and the limit that it works out of them, from kernels/costas.rs.
ghost use Rattle.std.specs.Prelude.{◌≡◌};
ghost use Rattle.carrier.specs.Gains.{kp_of, ki_of};

use gains::Gains;

// C2: what the loop is set up with, but for its constellation.
#[repr(C)]
#[derive(Clone, Copy)]
pub struct CarrierValues {
    // Loop bandwidth, normalized to the symbol rate, 0.0001 to 0.2.
    pub loop_bw: f64,
    // 0.1 to 4 (1/√2 is usual).
    pub damping: f64,
    // Largest frequency offset, in cycles per symbol, 0 to 0.25.
    pub max_offset: f64,
}

// C2: the three values of a set-up, with the gains and the limit. They stand here one by one and not as a
// `CarrierValues`: the C interface names each field (trr_carrier_params in bindings/c/train_receiver.h).
#[repr(C)]
#[derive(Clone, Copy, Default)]
pub struct Params {
    // Loop bandwidth, normalized to the symbol rate.
    pub loop_bw: f64,
    pub damping: f64,
    // Limit of the frequency integrator in cycles per symbol, as it was given.
    pub max_offset: f64,
    // Proportional gain in cycles per symbol per unit of the detector's output.
    pub kp: f32,
    // Integral gain.
    pub ki: f32,
    // The limit as the loop uses it.
    pub max: f32,
}

// 2 pi, the nearest f64.
const TAU: f64 = 6.283185307179586;

// C3: the gains, computed in f64 and narrowed.
pub(crate) fn loop_gains(loop_bw: f64, damping: f64) -> Gains<f32>
    ensures { result ≡ record { kp = kp_of loop_bw damping; ki = ki_of loop_bw damping } }
{
    let q = gains::inner_gains(loop_bw, damping);
    Gains {
        kp: numbers::narrow(q.kp / TAU),
        ki: numbers::narrow(q.ki / TAU),
    }
}
