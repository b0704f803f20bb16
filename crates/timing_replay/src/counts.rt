// The kinds of lines, and what their counts are written under.
use replay::{Kind, Kinds};

pub(crate) static KINDS: Kinds = Kinds {
    answered: &[
        Kind {
            letters: b"n",
            name: "set_up",
        },
        Kind {
            letters: b"z",
            name: "reset",
        },
        Kind {
            letters: b"r",
            name: "run",
        },
        Kind {
            letters: b"o",
            name: "output",
        },
        Kind {
            letters: b"s",
            name: "clock",
        },
        Kind {
            letters: b"h",
            name: "history",
        },
        Kind {
            letters: b"y",
            name: "previous",
        },
        Kind {
            letters: b"f",
            name: "integrator",
        },
        Kind {
            letters: b"ab",
            name: "parameters",
        },
        Kind {
            letters: b"k",
            name: "gains",
        },
    ],
    unanswered: b"vi",
};
