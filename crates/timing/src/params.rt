// The parameters of a timing state.

// T2: the timing error detector.
#[derive(Clone, Copy)]
pub enum Ted {
    // (y_prev - y) m with the midpoint sample (middle) m half a symbol before y: two interpolations a symbol.
    Gardner,
    // d_prev y - d y_prev with the decisions d = sign(y): one interpolation a symbol.
    MuellerMuller,
}

// T2: what a timing loop is set up with.
#[derive(Clone, Copy)]
pub struct TimingValues {
    // Samples per symbol, 2 to 1,000,000.
    pub sps: f64,
    pub ted: Ted,
    // Loop bandwidth, normalized to the symbol rate, 0.0001 to 0.1.
    pub loop_bw: f64,
    // 0.1 to 4 (1/√2 is usual).
    pub damping: f64,
    // Largest deviation of the spacing from sps, as a fraction of sps, 0 to 0.05.
    pub max_deviation: f64,
    // Detector gain, above 0: the detector's slope per symbol of offset.
    pub ted_gain: f64,
}

// T2, T3: the six values of a set-up, and the gains and the limit that it works out of them.
#[derive(Clone, Copy)]
pub struct Params {
    // Samples per symbol.
    pub sps: f64,
    pub ted: Ted,
    // Loop bandwidth, normalized to the symbol rate.
    pub loop_bw: f64,
    pub damping: f64,
    // Largest deviation of omega from sps, as a fraction of sps.
    pub max_deviation: f64,
    // Slope of the detector, by which the gains are divided.
    pub ted_gain: f64,
    // Proportional gain, in samples per unit of the detector's output.
    pub kp: f64,
    // Integral gain.
    pub ki: f64,
    // Limit of the integrator, in samples.
    pub lim: f64,
}
