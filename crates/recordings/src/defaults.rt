// What a receiver is set up with for the sample recording (P1).
ghost use Rattle.std.specs.Prelude.{◌≡◌};
ghost use Rattle.recordings.specs.Defaults.{timing_defaults, carrier_defaults};

use receiver::{CarrierValues, TimingValues};
use timing::Ted;

// ---- Timing

// Samples per symbol.
const SPS: f64 = 4.0;

// Loop bandwidth, as a fraction of the symbol rate.
const TIMING_BANDWIDTH: f64 = 0.01;

const TIMING_DAMPING: f64 = 1.0;

// The largest deviation of the pace from SPS, as a fraction of it.
const DEVIATION: f64 = 0.01;

// The detector gain: what Gardner's detector gives for each symbol of offset, where it is small. It is 2 pi
// for parts of 1 and -1 with smooth transitions between them.
const DETECTOR_GAIN: f64 = 6.28;

// ---- Carrier

// Loop bandwidth, as a fraction of the symbol rate.
const CARRIER_BANDWIDTH: f64 = 0.02;

const CARRIER_DAMPING: f64 = 1.0;

// The largest carrier offset, in cycles per symbol.
const OFFSET: f64 = 0.05;

pub fn timing_defaults(ted: Ted) -> TimingValues
    ensures { result ≡ timing_defaults ted }
{
    TimingValues {
        sps: SPS,
        ted: ted,
        loop_bw: TIMING_BANDWIDTH,
        damping: TIMING_DAMPING,
        max_deviation: DEVIATION,
        ted_gain: DETECTOR_GAIN,
    }
}

pub fn carrier_defaults() -> CarrierValues
    ensures { result ≡ carrier_defaults }
{
    CarrierValues {
        loop_bw: CARRIER_BANDWIDTH,
        damping: CARRIER_DAMPING,
        max_offset: OFFSET,
    }
}
