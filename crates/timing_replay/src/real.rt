// Playing a line on a state of real samples.
ghost use Rattle.timing.specs.Run.{Given};

use crate::timed::{Played, Ran};
use answers::{Operation, bits_of, floats_agree};
use replay_states::timing_agrees;
use timing::{Hist, SymbolSyncState, Track};
use values::C32;

fn as_sample(x: f32) -> C32 {
    C32 { re: x, im: 0.0 }
}

// The state as one of complex samples: a line has zeros in place of imaginary parts.
fn as_complex(s: SymbolSyncState<f32>) -> SymbolSyncState<C32> {
    SymbolSyncState {
        params: s.params,
        hist: Hist {
            a: as_sample(s.hist.a),
            b: as_sample(s.hist.b),
            c: as_sample(s.hist.c),
        },
        track: Track {
            clock: s.track.clock,
            y_prev: as_sample(s.track.y_prev),
            d_prev: as_sample(s.track.d_prev),
            mid: as_sample(s.track.mid),
            mid_ready: s.track.mid_ready,
            started: s.track.started,
        },
    }
}

// Whether the readings that the letter names agree. Kept as a match: the letters are the file's.
fn readings_agree(s: SymbolSyncState<f32>, op: Operation) -> bool {
    match op.letter {
        b'a' => floats_agree(s.sps(), s.loop_bw(), s.damping(), op),
        b'b' => bits_of(s.max_deviation()) == op.x && bits_of(s.ted_gain()) == op.y,
        b's' => bits_of(s.sps_estimate()) == op.answer,
        b'f' => bits_of(s.next_strobe()) == op.answer,
        _ => true,
    }
}

impl Played for f32 {
    fn run(s: SymbolSyncState<f32>, input: &[f32], output: &mut [f32]) -> Ran<f32>
        requires { Given s }
        ensures { Given result.state }
    {
        let ran = real_sync::run(s, input, output);
        Ran {
            state: ran.state,
            answer: Ok(ran.progress),
        }
    }

    fn fields_agree(s: SymbolSyncState<f32>, op: Operation) -> bool {
        timing_agrees(as_complex(s), op) && readings_agree(s, op)
    }
}
