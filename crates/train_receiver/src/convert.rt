// The exported converter between the receiver's record and the one that it was before, whose count had 32 bits.
ghost use Rattle.std.specs.Prelude.{◌≡◌};
ghost use Rattle.plain_records.specs.Records.{Given64};
ghost use Rattle.plain_records.specs.Convert.{widened, narrowed, Given32};

use plain_records::{Receiver32, Receiver64, ReceiverNarrowed, narrow, widen};

// L12: up. Every record converts, with its count and all else unchanged (R20).
pub fn trr_receiver_widen(old: Receiver32) -> Receiver64
    ensures state { result ≡ widened old }
    ensures given { Given32 old → Given64 result }
{
    widen(old)
}

// L13: down. A record whose count is at most 4,294,967,295 converts likewise; any other is too large (R21).
pub fn trr_receiver_narrow(x: Receiver64) -> ReceiverNarrowed
    ensures outcome { result ≡ narrowed x }
    ensures given { Given64 x → result.number ≡ 0 → Given32 result.receiver }
{
    narrow(x)
}
