// The tally of the lines that were played: where each kind is counted, and what is written of it.
ghost use Rattle.replay.specs.Tally.{Tallied};

use replay::tally::Tally;
use replay::{Kind, Kinds};

pub(crate) static KINDS: Kinds = Kinds {
    answered: &[
        Kind {
            letters: b"f",
            name: "floor",
        },
        Kind {
            letters: b"n",
            name: "narrow",
        },
        Kind {
            letters: b"w",
            name: "widen",
        },
        Kind {
            letters: b"s",
            name: "flush_denormal",
        },
        Kind {
            letters: b"d",
            name: "flush_denormal_f64",
        },
        Kind {
            letters: b"l",
            name: "limit_f32",
        },
        Kind {
            letters: b"m",
            name: "limit_f64",
        },
        Kind {
            letters: b"i",
            name: "is_finite_f32",
        },
        Kind {
            letters: b"j",
            name: "is_finite_f64",
        },
        Kind {
            letters: b"p",
            name: "interp_f32_pair",
        },
        Kind {
            letters: b"t",
            name: "phase_step_f32",
        },
        Kind {
            letters: b"u",
            name: "phase_step",
        },
    ],
    unanswered: b"",
};

// Counts a line at its letter's place.
pub(crate) fn agrees(tally: &mut Tally, letter: u8)
    ensures { Tallied 1 tally.old tally.new }
{
    tally.count(KINDS.place(letter), true);
}

// Counts a line whose recorded answer is not the computed one, and shows the first 20 of them.
pub(crate) fn differs(rt: &impl Print, tally: &mut Tally, letter: u8, line: &[u8], computed: u64)
    ensures { Tallied 1 tally.old tally.new }
{
    if tally.shows_more() {
        replay::differs(rt, line, computed);
    }
    tally.count(KINDS.place(letter), false);
}

// Counts a line that is not an operation as one that differs.
pub(crate) fn malformed(rt: &impl Print, tally: &mut Tally, line: &[u8])
    ensures { Tallied 1 tally.old tally.new }
{
    if tally.shows_more() {
        replay::malformed(rt, line);
    }
    tally.count(Tally::MALFORMED, false);
}
