// One symbol of the loop.
ghost use Rattle.std.specs.Prelude.{◌≡◌};
ghost use Rattle.carrier.specs.Step.{stepped};

use crate::filter::Nco;
use crate::params::Params;
use constellations::CostasConstellation;
use detectors::Lock;
use values::C32;

// What a run changes.
#[repr(C)]
#[derive(Clone, Copy, Default)]
pub struct Track {
    pub nco: Nco,
    pub lock: Lock,
}

// C23: the loop after the derotated symbol y.
pub fn step(constellation: CostasConstellation, p: Params, t: Track, y: C32) -> Track
    ensures { result ≡ stepped constellation p t y }
{
    let d = constellations::decide(constellation, y);
    let e = detectors::detector(constellation, y, d);
    let n = t.nco;
    let nco = crate::filter::advance(p, n, e);
    let k = t.lock;
    let lock = detectors::watch(k, detectors::lock_metric(constellation, y, d));
    Track {
        nco: nco,
        lock: lock,
    }
}
