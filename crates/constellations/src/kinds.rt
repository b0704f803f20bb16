// The constellation of the loop: it selects the phase detector (C16) and the lock measure (C19).
#[derive(Clone, Copy)]
pub enum CostasConstellation {
    // The detector y.re y.im.
    Bpsk,
    // The detector sign(y.re) y.im - sign(y.im) y.re.
    Qpsk,
    // The detector im(y conj d) against the point d of the octant.
    Psk8,
}
