// The kinds of lines, and what their counts are written under.
use replay::{Kind, Kinds};

pub(crate) static KINDS: Kinds = Kinds {
    answered: &[
        Kind {
            letters: b"n",
            name: "set_up",
        },
        Kind {
            letters: b"z",
            name: "reset",
        },
        Kind {
            letters: b"p",
            name: "set_phase",
        },
        Kind {
            letters: b"q",
            name: "set_frequency",
        },
        Kind {
            letters: b"r",
            name: "run",
        },
        Kind {
            letters: b"o",
            name: "output",
        },
        Kind {
            letters: b"a",
            name: "values",
        },
        Kind {
            letters: b"k",
            name: "gains",
        },
        Kind {
            letters: b"s",
            name: "oscillator",
        },
        Kind {
            letters: b"l",
            name: "lock",
        },
    ],
    unanswered: b"vi",
};
