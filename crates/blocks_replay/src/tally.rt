// What the comparisons of a recording come to, and their total.
ghost use Rattle.std.specs.Prelude.{◌≡◌};
ghost use Rattle.blocks_replay.specs.Compare.{sum_of, one_cut, counted};

// What was compared: the counts of the recording received whole, how many cuts, and how many of them
// differ from it.
#[derive(Clone, Copy)]
pub(crate) struct Tally {
    pub consumed: u64,
    pub produced: u64,
    pub cuts: u64,
    pub differ: u64,
}

impl Tally {
    // Of so many samples and symbols, before the first cut.
    pub(crate) fn start(consumed: u64, produced: u64) -> Tally {
        Tally {
            consumed: consumed,
            produced: produced,
            cuts: 0,
            differ: 0,
        }
    }

    // Of one cut.
    fn one(agrees: bool) -> Tally
        ensures { result ≡ one_cut agrees }
    {
        Tally {
            consumed: 0,
            produced: 0,
            cuts: 1,
            differ: if agrees { 0 } else { 1 },
        }
    }

    pub(crate) fn plus(self, other: Tally) -> Tally
        ensures { result ≡ sum_of self other }
    {
        Tally {
            consumed: self.consumed.wrapping_add(other.consumed),
            produced: self.produced.wrapping_add(other.produced),
            cuts: self.cuts.wrapping_add(other.cuts),
            differ: self.differ.wrapping_add(other.differ),
        }
    }

    // With one cut more.
    pub(crate) fn with_cut(self, agrees: bool) -> Tally
        ensures { result ≡ counted self agrees }
    {
        self.plus(Tally::one(agrees))
    }
}
