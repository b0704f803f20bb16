// What the receiver is set up with: both detectors, and under each all constellations.
ghost use Rattle.receiver.specs.Record.{SetUpGiven};

use constellations::CostasConstellation;
use receiver::Receiver;
use timing::Ted;
use values::Refusal;

pub(crate) const DETECTORS: [Ted; 2] = [Ted::Gardner, Ted::MuellerMuller];

pub(crate) const CONSTELLATIONS: [CostasConstellation; 3] = [
    CostasConstellation::Bpsk,
    CostasConstellation::Qpsk,
    CostasConstellation::Psk8,
];

#[derive(Clone, Copy)]
pub(crate) struct Kinds {
    pub detector: Ted,
    pub constellation: CostasConstellation,
}

impl Kinds {
    pub(crate) fn detector_name(self) -> &'static str {
        match self.detector {
            Ted::Gardner => "Gardner",
            Ted::MuellerMuller => "Mueller-Müller",
        }
    }

    pub(crate) fn constellation_name(self) -> &'static str {
        match self.constellation {
            CostasConstellation::Bpsk => "BPSK",
            CostasConstellation::Qpsk => "QPSK",
            CostasConstellation::Psk8 => "8-PSK",
        }
    }
}

// The receiver of these kinds, with what it is set up with for the sample recording.
pub(crate) fn set_up(kinds: Kinds) -> Result<Receiver, Refusal>
    ensures { SetUpGiven result }
{
    receiver::set_up(
        kinds.constellation,
        recordings::timing_defaults(kinds.detector),
        recordings::carrier_defaults(),
    )
}
