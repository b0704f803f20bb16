// A count of 64 bits that stops at its top.
ghost use Rattle.std.specs.Prelude.{◌≡◌};
ghost use Rattle.values.specs.Counter.{count_after};

// R18: the count after so many more.
#[tactic(auto, unfolding(crate::specs::Counter::count_after))]
pub fn counted(count: u64, more: usize) -> u64
    ensures { result ≡ count_after count more }
{
    count.saturating_add(more as u64)
}
