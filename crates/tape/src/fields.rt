// The fields of a command, by their places in its bytes (O2).
ghost use Rattle.std.specs.Prelude.{◌≡◌, ◌≤◌, ◌<◌, length};
ghost use Rattle.tape.specs.Reading.{carrier_values, timing_values, count_of};

use little_endian::{f64_at, little_endian};
use receiver::{CarrierValues, TimingValues};
use timing::Ted;

// ---- How many bytes a command has behind which field

pub(crate) const COMMAND_END: usize = 1;

pub(crate) const SELECTOR_END: usize = 2;

pub(crate) const COUNT_END: usize = 3;

// Three f64 behind the constellation, five behind the detector.
pub(crate) const CARRIER_END: usize = 26;

pub(crate) const TIMING_END: usize = 42;

// The largest count of samples, and how many f32 these are.
pub(crate) const LARGEST_COUNT: usize = 2048;

pub(crate) const PARTS: usize = 4096;

// How many bytes a sample has.
pub(crate) const SAMPLE: usize = 8;

// The carrier's values: loop bandwidth, damping, maximum offset.
pub(crate) fn carrier_values(bytes: &[u8]) -> CarrierValues
    ensures { result ≡ carrier_values bytes.now }
{
    CarrierValues {
        loop_bw: f64_at(bytes, 2),
        damping: f64_at(bytes, 10),
        max_offset: f64_at(bytes, 18),
    }
}

// Timing's values: samples per symbol, loop bandwidth, damping, maximum deviation, detector gain.
pub(crate) fn timing_values(bytes: &[u8], ted: Ted) -> TimingValues
    ensures { result ≡ timing_values ted bytes.now }
{
    TimingValues {
        sps: f64_at(bytes, 2),
        ted: ted,
        loop_bw: f64_at(bytes, 10),
        damping: f64_at(bytes, 18),
        max_deviation: f64_at(bytes, 26),
        ted_gain: f64_at(bytes, 34),
    }
}

// The count of samples, two bytes behind the command.
pub(crate) fn count_of(bytes: &[u8]) -> usize
    requires { 3 ≤ length bytes.now }
    ensures count { result ≡ count_of bytes.now }
    ensures below { result < 65536 }
{
    little_endian(&bytes[COMMAND_END..COUNT_END]) as usize
}
