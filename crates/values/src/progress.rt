// The counts of a call, from timing.rs. A call answers them, or why it is refused (A2).

// Result of a rate-changing call.
#[repr(C)]
#[derive(Clone, Copy)]
pub struct Progress {
    // Input samples consumed.
    pub consumed: usize,
    // Output samples produced.
    pub produced: usize,
}
