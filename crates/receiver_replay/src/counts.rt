// The tally of the lines that were played: where each kind is counted, and what is written of it.
ghost use Rattle.replay.specs.Tally.{Tallied};

use replay::tally::Tally;
use replay::{Kind, Kinds};

pub(crate) static KINDS: Kinds = Kinds {
    answered: &[
        Kind {
            letters: b"nu",
            name: "set_up",
        },
        Kind {
            letters: b"z",
            name: "reset",
        },
        Kind {
            letters: b"p",
            name: "set_phase",
        },
        Kind {
            letters: b"r",
            name: "run",
        },
        Kind {
            letters: b"",
            name: "turned_run",
        },
        Kind {
            letters: b"t",
            name: "strobes",
        },
        Kind {
            letters: b"o",
            name: "output",
        },
        Kind {
            letters: b"m",
            name: "symbol_number",
        },
        Kind {
            letters: b"abkshyfdgwl",
            name: "state",
        },
        Kind {
            letters: b"qe",
            name: "reading",
        },
        Kind {
            letters: b"x",
            name: "conversion",
        },
    ],
    unanswered: b"vcji",
};

// The place of the runs that were compared with turned ones. Kept as a number: they have no letter, and a count takes a
// place.
const TURNED: usize = 4;

// Counts a line, and a run once more for the second receiver.
pub(crate) fn count(
    rt: &impl Print,
    tally: &mut Tally,
    line: &[u8],
    letter: u8,
    agrees: bool,
    turned: bool,
)
    ensures { Tallied 1 tally.old tally.new }
{
    tally.count_line(rt, KINDS.place(letter), line, agrees);
    if letter == b'r' {
        tally.count_line(rt, TURNED, line, turned);
    }
}
