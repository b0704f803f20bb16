// The answer of a call as its number and its counts: one shape from the loops to the programs.
ghost use Rattle.std.specs.Prelude.{◌≡◌};
ghost use Rattle.values.specs.Counts.{counts_of};

use crate::error::Refusal;
use crate::progress::Progress;

// A2: what a call answers: its number, 0 where it is done, and the two counts. The number stands beside them as the C
// interface has them.
#[repr(C)]
#[derive(Clone, Copy)]
pub struct Counts {
    pub number: u32,
    pub consumed: usize,
    pub produced: usize,
}

impl From<Result<Progress, Refusal>> for Counts {
    ghost from_gives = { λ answer counts. counts ≡ counts_of answer };

    // K7: an answer as its number and counts.
    fn from(answer: Result<Progress, Refusal>) -> Counts {
        match answer {
            Ok(p) => Counts {
                number: 0,
                consumed: p.consumed,
                produced: p.produced,
            },
            Err(n) => Counts {
                number: n.number(),
                consumed: 0,
                produced: 0,
            },
        }
    }
}
