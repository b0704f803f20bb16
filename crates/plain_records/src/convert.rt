// The converter, over plain records: every field is carried over as it is.
ghost use Rattle.std.specs.Prelude.{◌≡◌};
ghost use Rattle.plain_records.specs.Records.{Given64};
ghost use Rattle.plain_records.specs.Convert.{widened, narrowed, answered, Given32};

use crate::record::{Receiver32, Receiver64};
use receiver_records::{LARGEST_32, TooLarge};

// L13: the number of "too large", which is none of a refusal's.
const TOO_LARGE: u32 = 100;

// L13: the answer of a conversion down: 0 and the record, or the number of "too large". Then there is no record: it is
// all zeros, and no call may be given it. The number stands beside the record as the C interface has them.
#[repr(C)]
#[derive(Clone, Copy)]
pub struct ReceiverNarrowed {
    pub number: u32,
    pub receiver: Receiver32,
}

// L12: up. Every record converts (R20).
impl From<Receiver32> for Receiver64 {
    ghost from_gives = { λ old x. x ≡ widened old };

    fn from(old: Receiver32) -> Receiver64 {
        Receiver64 {
            timing: old.timing,
            carrier: old.carrier,
            count: u64::from(old.count),
        }
    }
}

// L13: down, unless the count does not fit into 32 bits (R21).
impl TryFrom<Receiver64> for Receiver32 {
    type Error = TooLarge;

    ghost try_from_gives = { λ x answer. answered answer ≡ narrowed x };

    fn try_from(x: Receiver64) -> Result<Receiver32, TooLarge> {
        // Kept as a comparison, as in `receiver_records`.
        if x.count > LARGEST_32 {
            return Err(TooLarge);
        }
        Ok(Receiver32 {
            timing: x.timing,
            carrier: x.carrier,
            count: x.count as u32,
        })
    }
}

// L12: up, by its name in the specification.
pub fn widen(old: Receiver32) -> Receiver64
    ensures state { result ≡ widened old }
    ensures given { Given32 old → Given64 result }
{
    old.into()
}

// L13: down, by its name in the specification, with the number that goes to C.
pub fn narrow(x: Receiver64) -> ReceiverNarrowed
    ensures outcome { result ≡ narrowed x }
    ensures given { Given64 x → result.number ≡ 0 → Given32 result.receiver }
{
    match Receiver32::try_from(x) {
        Ok(old) => ReceiverNarrowed {
            number: 0,
            receiver: old,
        },
        Err(TooLarge) => ReceiverNarrowed {
            number: TOO_LARGE,
            receiver: Receiver32::default(),
        },
    }
}
