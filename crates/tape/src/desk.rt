// Which loops a tape has set up, and the receiver once both are there.
ghost use Rattle.std.specs.Prelude.{◌≡◌};
ghost use Rattle.timing.specs.Run.{Given as GivenTiming};
ghost use Rattle.carrier.specs.State.{Given as GivenCarrier};
ghost use Rattle.tape.specs.Desk.{with_timing, with_carrier, Given};

use carrier::CostasState;
use complex_sync::SymbolSyncState;
use receiver::Receiver;

// What the commands so far have left.
#[derive(Clone, Copy)]
pub enum Desk {
    // No loop is set up.
    Empty,
    // Timing alone is.
    Timing(SymbolSyncState),
    // The carrier alone is.
    Carrier(CostasState),
    // Both are.
    Both(Receiver),
}

// O7: a timing loop that is just set up. It replaces the one that was there; with a carrier it makes a receiver.
pub(crate) fn with_timing(desk: Desk, timing: SymbolSyncState) -> Desk
    requires given_2 { Given desk }
    requires timing { GivenTiming timing }
    ensures desk { result ≡ with_timing desk timing }
    ensures given { Given result }
{
    match desk {
        Desk::Empty => Desk::Timing(timing),
        Desk::Timing(_) => Desk::Timing(timing),
        Desk::Carrier(c) => Desk::Both(receiver::join(timing, c)),
        Desk::Both(r) => Desk::Both(receiver::put_timing(r, timing)),
    }
}

// O7: the same for a carrier loop.
pub(crate) fn with_carrier(desk: Desk, carrier: CostasState) -> Desk
    requires given_2 { Given desk }
    requires carrier { GivenCarrier carrier }
    ensures desk { result ≡ with_carrier desk carrier }
    ensures given { Given result }
{
    match desk {
        Desk::Empty => Desk::Carrier(carrier),
        Desk::Timing(t) => Desk::Both(receiver::join(t, carrier)),
        Desk::Carrier(_) => Desk::Carrier(carrier),
        Desk::Both(r) => Desk::Both(receiver::put_carrier(r, carrier)),
    }
}
