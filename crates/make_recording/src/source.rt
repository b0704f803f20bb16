// The symbols that are sent, and where the carrier stands.
ghost use Rattle.std.specs.Prelude.{◌≡◌};
ghost use Rattle.make_recording.specs.Source.{drawn, sent_point, started, next_of};

use values::C32;

// The generator's state before the first symbol.
const SEED: u32 = 1;

// The generator is linear: its state times MULTIPLIER, plus INCREMENT, in 32 bits.
const MULTIPLIER: u64 = 1664525;

const INCREMENT: u64 = 1013904223;

const MODULUS: u64 = 0x1_0000_0000;

// A quarter of the states: the top two bits of a state say in which quarter it lies.
const STATES_QUARTER: u32 = 0x4000_0000;

// The carrier's phase at the first sample, in units of 2^-32 turn: a twelfth of a turn.
const START_PHASE: u32 = 0x1555_5555;

// What the phase grows by from sample to sample: 0.0005 of a turn, which is 0.002 of a turn a symbol.
pub(crate) const PHASE_STEP: u32 = 0x20_c49c;

// The generator's state, the symbol that is left, the one that comes, and the phase of the next sample.
#[derive(Clone, Copy)]
pub(crate) struct Source {
    pub state: u32,
    pub from: C32,
    pub to: C32,
    pub phase: u32,
}

// The generator's next state.
fn step(state: u32) -> u32
    ensures { result ≡ drawn state }
{
    ((MULTIPLIER * (state as u64) + INCREMENT) % MODULUS) as u32
}

// P5: the symbol of a state: (1, 1), turned as often as its top two bits say.
fn point(state: u32) -> C32
    ensures { result ≡ sent_point state }
{
    let number = state / STATES_QUARTER;
    match number {
        0 => C32 { re: 1.0, im: 1.0 },
        1 => C32 { re: -1.0, im: 1.0 },
        2 => C32 { re: -1.0, im: -1.0 },
        _ => C32 { re: 1.0, im: -1.0 },
    }
}

impl Source {
    // The first symbol comes out of silence.
    pub fn start() -> Source
        ensures { result ≡ started }
    {
        let state = step(SEED);
        Source {
            state: state,
            from: C32 { re: 0.0, im: 0.0 },
            to: point(state),
            phase: START_PHASE,
        }
    }

    // A symbol on.
    pub fn next(self) -> Source
        ensures { result ≡ next_of self }
    {
        let state = step(self.state);
        Source {
            state: state,
            from: self.to,
            to: point(state),
            phase: self.phase.wrapping_add(4 * PHASE_STEP),
        }
    }
}
