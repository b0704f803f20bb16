// L4, L11 and L14: the numbers that stand for the enums, as bindings/c/train_receiver.h names them, and which
// numbers do. They stay functions: a From between u32 and an enum can stand in the enum's crate alone, and the codes are
// the C interface's.
ghost use Rattle.std.specs.Prelude.{◌≡◌};
ghost use Rattle.plain.specs.Codes.{detector_named, detector_of, detector_code, constellation_named, constellation_of, constellation_code, symbol_under, symbol_code};

use constellations::CostasConstellation;
use symbol_numbers::symbol_number;
use timing::Ted;
use values::C32;

const GARDNER: u32 = 0;

const MUELLER_MUELLER: u32 = 1;

// How many detectors have a code, from 0 up.
const DETECTORS: u32 = 2;

const BPSK: u32 = 0;

const QPSK: u32 = 1;

const PSK8: u32 = 2;

// How many constellations have a code, from 0 up.
const CONSTELLATIONS: u32 = 3;

const NO_SYMBOL: usize = 255;

// L14: whether a detector has this code.
pub fn detector_named(code: u32) -> bool
    ensures { result ≡ detector_named code }
{
    code < DETECTORS
}

// L14: whether a constellation has this code.
pub fn constellation_named(code: u32) -> bool
    ensures { result ≡ constellation_named code }
{
    code < CONSTELLATIONS
}

// Gardner for its code, Mueller-Müller for any other.
pub fn detector(code: u32) -> Ted
    ensures { result ≡ detector_of code }
{
    if code == GARDNER {
        Ted::Gardner
    } else {
        Ted::MuellerMuller
    }
}

pub fn detector_code(ted: Ted) -> u32
    ensures { result ≡ detector_code ted }
{
    match ted {
        Ted::Gardner => GARDNER,
        Ted::MuellerMuller => MUELLER_MUELLER,
    }
}

// BPSK and QPSK for their codes, 8-PSK for any other.
pub fn constellation(code: u32) -> CostasConstellation
    ensures { result ≡ constellation_of code }
{
    if code == BPSK {
        CostasConstellation::Bpsk
    } else if code == QPSK {
        CostasConstellation::Qpsk
    } else {
        CostasConstellation::Psk8
    }
}

pub fn constellation_code(constellation: CostasConstellation) -> u32
    ensures { result ≡ constellation_code constellation }
{
    match constellation {
        CostasConstellation::Bpsk => BPSK,
        CostasConstellation::Qpsk => QPSK,
        CostasConstellation::Psk8 => PSK8,
    }
}

// L11, L14: what a symbol reads under the constellation of a code: none where no constellation has the code.
pub fn symbol_under(code: u32, y: C32) -> Option<usize>
    ensures { result ≡ symbol_under code y }
{
    if !constellation_named(code) {
        return None;
    }
    symbol_number(constellation(code), y)
}

// L11: the number of a symbol, or the code for none.
pub fn symbol_code(number: Option<usize>) -> usize
    ensures { result ≡ symbol_code number }
{
    match number {
        Some(n) => n,
        None => NO_SYMBOL,
    }
}
