// The converter. It carries the states of both loops over as they are.
ghost use Rattle.std.specs.Prelude.{◌≡◌, Some, codes};
ghost use Rattle.receiver_records.specs.Records.{widened, narrowed, Given32, Given64, NarrowedGiven};

use crate::record::{Receiver32, Receiver64, Record};
use std::fmt;

// The largest count that 32 bits hold.
pub const LARGEST_32: u64 = 0xffff_ffff;

// R21: why a record gives none with a count of 32 bits.
#[derive(Clone, Copy, Debug, PartialEq, Eq)]
pub struct TooLarge;

impl fmt::Display for TooLarge {
    ghost output = { λ _. Some (codes "the symbol count is above 4,294,967,295") };

    fn fmt<W: fmt::Write>(&self, f: &mut fmt::Formatter<W>) -> fmt::Result {
        f.write_str("the symbol count is above 4,294,967,295")
    }
}

// R20: up. Every record converts.
impl From<Receiver32> for Receiver64 {
    ghost from_gives = { λ old r. r ≡ widened old };

    fn from(old: Receiver32) -> Receiver64 {
        Record {
            timing: old.timing,
            carrier: old.carrier,
            count: u64::from(old.count),
        }
    }
}

// R21: down. A record whose count does not fit into 32 bits is too large, and gives none.
impl TryFrom<Receiver64> for Receiver32 {
    type Error = TooLarge;

    ghost try_from_gives = { λ r answer. answer ≡ narrowed r };

    fn try_from(r: Receiver64) -> Result<Receiver32, TooLarge> {
        // Kept as a comparison: an edit gives it another constant, so that a fact and not a form refuses it.
        if r.count > LARGEST_32 {
            return Err(TooLarge);
        }
        Ok(Record {
            timing: r.timing,
            carrier: r.carrier,
            count: r.count as u32,
        })
    }
}

// R20: up, by its name in the specification.
pub fn widen(old: Receiver32) -> Receiver64
    ensures state { result ≡ widened old }
    ensures given { Given32 old → Given64 result }
{
    old.into()
}

// R21: down, by its name in the specification.
pub fn narrow(r: Receiver64) -> Result<Receiver32, TooLarge>
    ensures outcome { result ≡ narrowed r }
    ensures given { Given64 r → NarrowedGiven result }
{
    r.try_into()
}
