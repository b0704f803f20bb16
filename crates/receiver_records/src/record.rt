// The record of a receiver. It holds both loops, and how many symbols were produced since the set-up or the last reset.
use carrier::CostasState;
use complex_sync::SymbolSyncState;

// The record whose count is an `N`.
#[derive(Clone, Copy)]
pub struct Record<N> {
    pub timing: SymbolSyncState,
    // The constellation stands in it.
    pub carrier: CostasState,
    pub count: N,
}

// R18: the record whose count has 64 bits, at most 18,446,744,073,709,551,615.
pub type Receiver64 = Record<u64>;

// R19: the record as it was before. Its count stopped at 4,294,967,295.
pub type Receiver32 = Record<u32>;
