// The ways in which the recording of 4,000 samples is cut.

// How many samples each block has, and for how many symbols each call has places.
#[derive(Clone, Copy)]
pub(crate) struct Cut {
    pub block: usize,
    pub places: usize,
}

// The recording in one block.
pub(crate) const WHOLE: Cut = Cut {
    block: 4000,
    places: 4004,
};

// The cuts that are compared with the whole. The first five have places enough. The last two have too few, so that a
// call leaves samples to the next.
pub(crate) const CUTS: [Cut; 7] = [
    Cut {
        block: 1,
        places: 5,
    },
    Cut {
        block: 2,
        places: 6,
    },
    Cut {
        block: 3,
        places: 7,
    },
    Cut {
        block: 7,
        places: 11,
    },
    Cut {
        block: 64,
        places: 68,
    },
    Cut {
        block: 64,
        places: 3,
    },
    Cut {
        block: 4000,
        places: 1,
    },
];
