// The quotients, in f64, in the original's order and brackets.
ghost use Rattle.std.specs.Prelude.{◌≡◌};
ghost use Rattle.gains.specs.Quotients.{proportional, integral};

// The proportional and the integral gain.
#[derive(Clone, Copy)]
pub struct Gains<T> {
    pub kp: T,
    pub ki: T,
}

// T3: the quotients of a loop with the bandwidth loop_bw, normalized to the symbol rate, and this damping, whose
// detector has the slope 1.
pub fn inner_gains(loop_bw: f64, damping: f64) -> Gains<f64>
    ensures { result ≡ record { kp = proportional loop_bw damping; ki = integral loop_bw damping } }
{
    let theta = loop_bw / (damping + 1.0 / (4.0 * damping));
    let d = (1.0 + (2.0 * damping) * theta) + theta * theta;
    Gains {
        kp: ((4.0 * damping) * theta) / d,
        ki: (4.0 * (theta * theta)) / d,
    }
}
