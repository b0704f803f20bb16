// The steps of the clock, which no sample enters: both timing loops take them.
ghost use Rattle.std.specs.Prelude.{◌≡◌, ◌&&◌, not, cond, ◌-◌, min, T, leb};
ghost use Rattle.std.specs.Float.{binary64};
ghost use Rattle.std.specs.Float.Ieee.{in_unsigned, to_unsigned};
ghost use Rattle.timing.specs.Clock.{fresh_clock, mid_index, mid_part, moved, advanced, settled, lacking, mid_left, On};
ghost use Rattle.timing.specs.Given.{GivenClock, GivenMiddle, GivenStrobe};

use timing::{Clock, Params, Ted};

// The strobe position of a fresh state, counted from the first sample of the history: 4 is the input
// sample 1, the first position with a full window.
const START: usize = 4;

// T6: the clock of a fresh state: the first strobe at input sample 1, omega = sps and a zero integrator.
pub fn fresh_clock(sps: f64) -> Clock
    ensures { result ≡ fresh_clock sps }
{
    Clock {
        i: START,
        mu: 0.0,
        omega: sps,
        integ: 0.0,
    }
}

// A place between samples: the whole part and the fraction.
#[derive(Clone, Copy)]
pub struct Place {
    pub i: usize,
    pub mu: f64,
}

// A whole number as a count, as `f as usize` is. An i64 on the way, which a whole number that the
// cast takes fits: one instruction makes it of an f64, and it takes five to make a u64.
fn count(f: f64) -> usize
    requires { T (in_unsigned binary64 64 f) }
    ensures { result ≡ to_unsigned 64 f }
{
    (f as i64) as usize
}

// T10: the position t - omega/2 of the midpoint sample (middle), t being the strobe's.
pub fn mid_position(c: Clock) -> Place
    requires { GivenMiddle c }
    ensures { result ≡ record { i = mid_index c; mu = mid_part c } }
{
    let v = c.mu - c.omega * 0.5;
    let f = numbers::floor(v);
    // f is 0 or below, and 0.0 - f is no negative zero.
    let back = count(0.0 - f);
    let i = c.i - back;
    let mu = v - f;
    Place { i: i, mu: mu }
}

// T16 to T18: the clock after a strobe with the finite error e.
fn step_on(p: Params, c: Clock, e: f64) -> Clock
    requires { On c.i (moved p c e) }
    ensures { result ≡ advanced p c e }
{
    let integ = numbers::limit(numbers::flush_denormal(c.integ + p.ki * e), p.lim);
    let omega = p.sps + integ;
    let q = omega * 0.25;
    let v = (c.mu + omega) + numbers::limit(p.kp * e, q);
    let f = numbers::floor(v);
    let i = c.i + count(f);
    Clock {
        i: i,
        mu: v - f,
        omega: omega,
        integ: integ,
    }
}

// T18: the clock after a strobe with the detector's error e, which T13 may make 0.
pub fn advance(p: Params, c: Clock, started: bool, e: f32) -> Clock
    requires { GivenStrobe p c }
    ensures { result ≡ advanced p c (settled started e) }
{
    step_on(p, c, timing::settle(started, e))
}

// T10: whether a middle is due.
pub fn lacks(ted: Ted, started: bool, mid_ready: bool) -> bool
    ensures { result ≡ lacking ted started mid_ready }
{
    match ted {
        Ted::Gardner => started && !mid_ready,
        Ted::MuellerMuller => false,
    }
}

// T11: whether a middle is held after a strobe: under Gardner it is not.
pub fn mid_left(ted: Ted, mid_ready: bool) -> bool
    ensures { result ≡ mid_left ted mid_ready }
{
    match ted {
        Ted::Gardner => false,
        Ted::MuellerMuller => mid_ready,
    }
}

// T12: whether a run over n input samples goes on: no middle is lacking, and i + 2 is an index of the n + 3 samples.
pub fn can_strobe(lacks: bool, i: usize, n: usize) -> bool
    ensures { result ≡ (not lacks && leb i n) }
{
    !lacks && i <= n
}

// T19: the count consumed: what lies before the next position that the loop needs, at most n.
pub fn consumed(c: Clock, lacks: bool, n: usize) -> usize
    requires { GivenClock c lacks n }
    ensures { result ≡ min (cond lacks (mid_index c) c.i - 1) n }
{
    let pending = if lacks {
        let at = mid_position(c);
        at.i
    } else {
        c.i
    };
    (pending - 1).min(n)
}
