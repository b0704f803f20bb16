// The states of both loops as words, three in a row: floats and pairs of f32 as bit patterns, the sign of a
// zero too. What has a reading is read by it. The letters of a timing state's rows mean the same wherever
// timing states are recorded:
//
//   a  sps, loop bandwidth, damping: the readings
//   b  maximum deviation, detector gain, detector
//   k  kp, ki, lim
//   s  position, fraction, spacing
//   h  the history's three samples
//   y  previous strobe, previous decision, middle
//   f  integrator, middle held + 2 started, next strobe
ghost use Rattle.std.specs.Prelude.{◌≡◌};
ghost use Rattle.replay_states.specs.Words.{flag_of, flags_of, timing_words, carrier_words};

use answers::{bits_of, word};
use carrier::CostasState;
use complex_sync::SymbolSyncState;
use plain::{constellation_code, detector_code};

fn flag(b: bool) -> u64
    ensures { result ≡ flag_of b }
{
    u64::from(b)
}

fn flags(mid_ready: bool, started: bool) -> u64
    ensures { result ≡ flags_of mid_ready started }
{
    2 * flag(started) + flag(mid_ready)
}

// The rows a, b, k, s, h, y and f.
pub fn timing_words(s: SymbolSyncState) -> [u64; 21]
    ensures { result ≡ timing_words s }
{
    let p = s.params;
    let h = s.hist;
    let t = s.track;
    let c = t.clock;
    [
        bits_of(s.sps()),
        bits_of(s.loop_bw()),
        bits_of(s.damping()),
        bits_of(s.max_deviation()),
        bits_of(s.ted_gain()),
        detector_code(s.ted()) as u64,
        bits_of(p.kp),
        bits_of(p.ki),
        bits_of(p.lim),
        c.i as u64,
        bits_of(c.mu),
        bits_of(s.sps_estimate()),
        word(h.a.re, h.a.im),
        word(h.b.re, h.b.im),
        word(h.c.re, h.c.im),
        word(t.y_prev.re, t.y_prev.im),
        word(t.d_prev.re, t.d_prev.im),
        word(t.mid.re, t.mid.im),
        bits_of(c.integ),
        flags(t.mid_ready, t.started),
        bits_of(s.next_strobe()),
    ]
}

// Loop bandwidth, damping and maximum offset; the gains and the limit; the phase, the frequency as the f32
// that it is, and the reading of it; the lock level, whether there is lock, and the constellation.
pub fn carrier_words(s: CostasState) -> [u64; 12]
    ensures { result ≡ carrier_words s }
{
    let p = s.params;
    let n = s.track.nco;
    [
        bits_of(s.loop_bw()),
        bits_of(s.damping()),
        bits_of(s.max_offset()),
        bits_of(p.kp) as u64,
        bits_of(p.ki) as u64,
        bits_of(p.max) as u64,
        s.phase() as u64,
        bits_of(n.freq) as u64,
        bits_of(s.frequency()),
        bits_of(s.lock_level()) as u64,
        flag(s.locked()),
        constellation_code(s.constellation()) as u64,
    ]
}
