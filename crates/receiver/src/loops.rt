// One loop of a receiver by itself: its set-up with the receiver's checks, and how it is put into a record.
ghost use Rattle.std.specs.Prelude.{◌≡◌};
ghost use Rattle.timing.specs.Run.{Given as GivenTiming};
ghost use Rattle.carrier.specs.State.{Given as GivenCarrier, SetUpGiven as CarrierGiven};
ghost use Rattle.receiver.specs.Record.{Given};
ghost use Rattle.receiver.specs.Loops.{timing_opened, carrier_opened, joined, timing_put, carrier_put, TimingGiven};

use carrier::{CarrierValues, CostasConstellation, CostasState};
use complex_sync::SymbolSyncState;
use receiver_records::Receiver64 as Receiver;
use timing::TimingValues;
use values::Refusal;

// R25: a fresh timing loop, or the number of what is wrong with its values, by the receiver's checks of timing.
pub fn set_up_timing(t: TimingValues) -> Result<SymbolSyncState, Refusal>
    ensures outcome { result ≡ timing_opened t }
    ensures given { TimingGiven result }
{
    complex_sync::set_up(t)
}

// R25: a fresh carrier loop, or the number of what is wrong with its values, by the receiver's checks of the carrier.
pub fn set_up_carrier(
    constellation: CostasConstellation,
    c: CarrierValues,
) -> Result<CostasState, Refusal>
    ensures outcome { result ≡ carrier_opened constellation c }
    ensures given { CarrierGiven result }
{
    carrier::set_up(constellation, c)
}

// R26: the record of two loops, with no symbol counted. That both were given is a clause, as wherever a state comes in.
pub fn join(timing: SymbolSyncState, carrier: CostasState) -> Receiver
    requires timing { GivenTiming timing }
    requires carrier { GivenCarrier carrier }
    ensures state { result ≡ joined timing carrier }
    ensures given { Given result }
{
    Receiver {
        timing: timing,
        carrier: carrier,
        count: 0,
    }
}

// R27: the record with another timing loop. The carrier and the count stay.
pub fn put_timing(r: Receiver, timing: SymbolSyncState) -> Receiver
    requires given_2 { Given r }
    requires timing { GivenTiming timing }
    ensures state { result ≡ timing_put r timing }
    ensures given { Given result }
{
    Receiver { timing, ..r }
}

// R27: the record with another carrier loop. Timing and the count stay.
pub fn put_carrier(r: Receiver, carrier: CostasState) -> Receiver
    requires given_2 { Given r }
    requires carrier { GivenCarrier carrier }
    ensures state { result ≡ carrier_put r carrier }
    ensures given { Given result }
{
    Receiver { carrier, ..r }
}
