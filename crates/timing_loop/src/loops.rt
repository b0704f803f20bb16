// The loop over slices that the caller lends, from fallback/symbol_sync.rs. A run refuses nothing.
ghost use Rattle.std.specs.Prelude.{◌≡◌, length};
ghost use Rattle.values.specs.Buffers.{written};
ghost use Rattle.timing.specs.Given.{Running, GivenStrobe};
ghost use Rattle.timing.specs.Loop as loop;
ghost use Rattle.timing.specs.Run.{line, Given, ran, done};
ghost use Rattle.timing_loop.specs.Outcome.{recovered};

use crate::line::Line;
use strobe_clock::{advance, can_strobe, consumed, lacks, mid_left, mid_position};
use timing::{Params, Sample, SymbolSyncState, Ted, Track};
use values::Progress;

// ---- One output place

// T10: the midpoint sample (middle) is taken, where it is lacking and available.
fn take_mid<S: Sample>(p: Params, l: &Line<S>, t: Track<S>) -> Track<S>
    requires { Running p t.clock (loop.lacks p t) (S.form.count (length l.now.input.now)) }
    ensures { result ≡ loop.mid_taken S.ops p (line l.now.hist (S.form.samples l.now.input.now)) t }
{
    if lacks(p.ted, t.started, t.mid_ready) {
        let at = mid_position(t.clock);
        if at.i <= l.count() {
            let mut t = t;
            t.mid = l.value_at(at.i, at.mu);
            t.mid_ready = true;
            return t;
        }
    }
    t
}

// T26: the decision that is kept: Gardner makes none.
fn decision<S: Sample>(ted: Ted, d_prev: S, y: S) -> S
    ensures { result ≡ loop.decision S.ops ted d_prev y }
{
    match ted {
        Ted::Gardner => d_prev,
        Ted::MuellerMuller => S::decide(y),
    }
}

// T14, T15: the detector's error at the strobe y with the decision d.
fn error<S: Sample>(ted: Ted, t: &Track<S>, y: S, d: S) -> f32
    ensures { result ≡ loop.error_of S.ops ted t.now y d }
{
    match ted {
        Ted::Gardner => S::gardner(t.y_prev, y, t.mid),
        Ted::MuellerMuller => S::mm(t.d_prev, y, d, t.y_prev),
    }
}

// T26: what the strobe y changes.
fn strobe<S: Sample>(p: Params, t: Track<S>, y: S) -> Track<S>
    requires { GivenStrobe p t.clock }
    ensures { result ≡ loop.strobed S.ops p t y }
{
    let ted = p.ted;
    let d = decision(ted, t.d_prev, y);
    let clock = advance(p, t.clock, t.started, error(ted, &t, y, d));
    let mid = t.mid;
    let mid_ready = mid_left(ted, t.mid_ready);
    Track {
        clock: clock,
        y_prev: y,
        d_prev: d,
        mid: mid,
        mid_ready: mid_ready,
        started: true,
    }
}

// ---- A run

// The track after the loop, and how many strobes it has written.
#[derive(Clone, Copy)]
struct Strobed<S> {
    track: Track<S>,
    produced: usize,
}

// T9: strobes go to the output until its places are full or the next strobe is not available (T12).
fn strobes<S: Sample>(p: Params, l: &Line<S>, t: Track<S>, output: &mut [f32]) -> Strobed<S>
    requires { Running p t.clock (loop.lacks p t) (S.form.count (length l.now.input.now)) }
    ensures last { result.track ≡ (loop.runs S.ops p (line l.now.hist (S.form.samples l.now.input.now)) (S.form.count (length output.old)) t).last }
    ensures produced { result.produced ≡ length (loop.runs S.ops p (line l.now.hist (S.form.samples l.now.input.now)) (S.form.count (length output.old)) t).values }
    ensures output { output.new ≡ written (S.form.slice (loop.runs S.ops p (line l.now.hist (S.form.samples l.now.input.now)) (S.form.count (length output.old)) t).values) output.old }
{
    let places = S::count(output.len());
    let n = l.count();
    let ted = p.ted;
    let mut t = t;
    let mut produced = 0;
    // Kept as a loop: how many strobes there are shows only at the end, since each one moves the next.
    while produced < places {
        t = take_mid(p, l, t);
        let i = t.clock.i;
        if !can_strobe(lacks(ted, t.started, t.mid_ready), i, n) {
            break;
        }
        let y = l.value_at(i, t.clock.mu);
        t = strobe(p, t, y);
        S::store_sample(output, produced, y);
        produced += 1;
    }
    Strobed {
        track: t,
        produced: produced,
    }
}

// The counts of a run, and the state after it.
#[derive(Clone, Copy)]
pub struct Recovered<S> {
    pub progress: Progress,
    pub state: SymbolSyncState<S>,
}

// T27: the strobes go to the front of the output. What a buffer has past its last whole sample is left alone.
pub fn recover<S: Sample>(s: SymbolSyncState<S>, input: &[f32], output: &mut [f32]) -> Recovered<S>
    requires { Given s }
    ensures outcome { recovered result output.new ≡ done S.form.slice (ran S.ops s (S.form.samples input.now) (S.form.count (length output.old))) output.old }
    ensures given { Given result.state }
{
    let p = s.params;
    let l = Line {
        hist: s.hist,
        input: input,
    };
    let got = strobes(p, &l, s.track, output);
    let mut u = got.track;
    let ted = p.ted;
    let k = consumed(u.clock, lacks(ted, u.started, u.mid_ready), l.count());
    let kept = l.hist_at(k);
    let i = u.clock.i - k;
    u.clock.i = i;
    let progress = Progress {
        consumed: k,
        produced: got.produced,
    };
    let state = SymbolSyncState {
        params: p,
        hist: kept,
        track: u,
    };
    Recovered {
        progress: progress,
        state: state,
    }
}
