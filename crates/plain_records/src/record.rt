// The two records: both loops' records and a symbol count. They stay twins, where `receiver_records` has one generic
// record: a type that crosses the C interface may have no type parameter.
ghost use Rattle.std.specs.Prelude.{◌≡◌};
ghost use Rattle.plain_records.specs.Records.{receiver64_of, record64_of};

use plain_carrier::Carrier;
use plain_timing::complex::ComplexTiming;

// The record whose count has 64 bits (R18). The two are twins: the C interface takes no type parameter.
#[repr(C)]
#[derive(Clone, Copy, Default)]
pub struct Receiver64 {
    pub timing: ComplexTiming,
    pub carrier: Carrier,
    // How many symbols were produced since the set-up or the last reset, up to 18,446,744,073,709,551,615.
    pub count: u64,
}

// The record as it was before (R19).
#[repr(C)]
#[derive(Clone, Copy, Default)]
pub struct Receiver32 {
    pub timing: ComplexTiming,
    pub carrier: Carrier,
    // The same, up to 4,294,967,295.
    pub count: u32,
}

// L1: the receiver that a record stands for.
impl From<Receiver64> for receiver_records::Receiver64 {
    ghost from_gives = { λ x r. r ≡ receiver64_of x };

    fn from(x: Receiver64) -> receiver_records::Receiver64 {
        receiver_records::Record {
            timing: x.timing.into(),
            carrier: x.carrier.into(),
            count: x.count,
        }
    }
}

// L1: the record of a receiver.
impl From<receiver_records::Receiver64> for Receiver64 {
    ghost from_gives = { λ r x. x ≡ record64_of r };

    fn from(r: receiver_records::Receiver64) -> Receiver64 {
        Receiver64 {
            timing: r.timing.into(),
            carrier: r.carrier.into(),
            count: r.count,
        }
    }
}
