// P6: replays recorded order tapes, which stand on standard input. Says how many there were with each number, and how
// many end otherwise when `tape::step` plays them: with another number, at another place, or with another output. The
// frames that differ are named by their index, from 0 on.
//
// The input has frames, one after the other. All numbers are little-endian, of four bytes:
//
//   length of the tape, at most 65,536
//   the tape
//   number: 0, or the one that the tape is refused with
//   stopping place: how many bytes of the tape were read when it ended
//   length of the output, at most 65,536
//   the output
//
// Each tape is played twice: once all that is left of it is handed at each call, and once a command's bytes so far, as
// many more as the last call wanted. Then what was recorded is altered in one place, and must be seen to differ from
// both. A frame that is cut off or too long counts as one that differs, and is the last one.
#![tactic(auto)]

mod compare;
mod counts;
mod damage;
mod frame;
mod play;
mod window;

ghost use Rattle.std.specs.Prelude.{◌≡◌, ◌+◌, ◌^◌, ◌<◌, length};
ghost use Rattle.replay.specs.Tally.{none_counted, Tallied};
ghost use Rattle.tape_replay.specs.Frame.{FrameFits};

use compare::Recorded;
use counts::Counts;
use frame::{Frame, WORD};
use play::Twice;
use replay::LINES;
use std::io::Read;
use window::Window;

// Plays the frame at the front of the bytes, and counts it.
fn play_frame(
    rt: &impl Print,
    frame: Frame,
    bytes: &mut [u8],
    twice: &mut Twice,
    counts: &mut Counts,
)
    requires fits { FrameFits frame (length bytes.old) }
    requires few { counts.old.frames < 2 ^ 26 }
    ensures frames { counts.new.frames ≡ counts.old.frames + 1 }
    ensures tallied { Tallied 1 counts.old.tally counts.new.tally }
{
    let end = WORD + frame.tape;
    twice.play(&bytes[WORD..end]);
    let index = counts.frames;
    let recorded = Recorded {
        frame: frame,
        bytes: bytes,
    };
    recorded.judge(rt, twice, index, &mut counts.tally);
    let wrong = Recorded {
        frame: damage::alter(frame, bytes, index),
        bytes: bytes,
    };
    wrong.judge_damaged(twice, &mut counts.damaged);
    counts.add_frame(frame, twice);
}

// Reads and plays the frame at the front of the window, and counts it.
fn play_next(rt: &impl Print, window: &mut Window, twice: &mut Twice, counts: &mut Counts)
    requires { counts.old.frames < 2 ^ 26 }
    ensures frames { counts.new.frames ≡ counts.old.frames + 1 }
    ensures tallied { Tallied 1 counts.old.tally counts.new.tally }
{
    let from = window.from;
    let to = window.to;
    let bytes = &mut window.buffer[from..to];
    let reading = frame::read_frame(bytes);
    match reading {
        Some(frame) => play_frame(rt, frame, bytes, twice, counts),
        None => counts.add_malformed(rt),
    }
    window.pass(reading);
}

// Plays frame after frame, up to the end of the input.
fn play_frames(rt: &impl Print, reader: &mut impl Read) -> Counts
    ensures { Tallied result.frames (none_counted) result.tally }
{
    let mut window = Window::nothing();
    let mut twice = Twice::nothing();
    let mut counts = Counts::nothing();
    for _ in 0..LINES {
        window.refill(reader);
        if window.from == window.to {
            break;
        }
        play_next(rt, &mut window, &mut twice, &mut counts);
    }
    counts
}

fn main(rt: HostRuntime) {
    let mut reader = rt.reader();
    let mut counts = play_frames(&rt, &mut reader);
    counts.tally.too_long(&rt, counts.frames);
    counts.show(&rt);
}
