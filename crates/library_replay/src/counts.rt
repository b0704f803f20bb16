// The kinds of lines, and what their counts are written under.
use replay::{Kind, Kinds};

pub(crate) static KINDS: Kinds = Kinds {
    answered: &[
        Kind {
            letters: b"nu",
            name: "set_up",
        },
        Kind {
            letters: b"z",
            name: "reset",
        },
        Kind {
            letters: b"p",
            name: "set_phase",
        },
        Kind {
            letters: b"r",
            name: "call",
        },
        Kind {
            letters: b"t",
            name: "strobes",
        },
        Kind {
            letters: b"o",
            name: "output",
        },
        Kind {
            letters: b"m",
            name: "symbol_number",
        },
        Kind {
            letters: b"abdqe",
            name: "reading",
        },
        Kind {
            letters: b"x",
            name: "conversion",
        },
    ],
    unanswered: b"vcij",
};
