// Playing a line on a state of either kind of samples.
ghost use Rattle.timing.specs.Run.{Given};

use answers::Operation;
use replay::buffers::Buffers;
use replay_states::answer_agrees;
use timing::{Sample, SymbolSyncState};
use values::{Progress, Refusal};

// What a line does that differs by the samples.
pub(crate) trait Played: Sample {
    // A run's answer, and the state after it.
    fn run(s: SymbolSyncState<Self>, input: &[f32], output: &mut [f32]) -> Ran<Self>
        requires { Given s }
        ensures { Given result.state };

    // Whether the fields that the letter names agree, and the readings.
    fn fields_agree(s: SymbolSyncState<Self>, op: Operation) -> bool;
}

#[derive(Clone, Copy)]
pub(crate) struct Ran<S> {
    pub state: SymbolSyncState<S>,
    pub answer: Result<Progress, Refusal>,
}

// Runs on as much of the buffers as the line says, and not at all if they have less.
fn run<S: Played>(s: &mut SymbolSyncState<S>, op: Operation, buffers: &mut Buffers) -> bool
    requires { Given s.old }
    ensures { Given s.new }
{
    let Some((input, output)) = buffers.lend(op) else {
        return false;
    };
    let ran = S::run(*s, input, output);
    *s = ran.state;
    answer_agrees(ran.answer, op)
}

// Resets, runs, or compares fields, unless the buffers agree already. Says whether the line agrees.
pub(crate) fn play<S: Played>(
    s: &mut SymbolSyncState<S>,
    op: Operation,
    buffers: &mut Buffers,
    agrees: bool,
) -> bool
    requires { Given s.old }
    ensures { Given s.new }
{
    // Kept as a match: the letters are the file's.
    match op.letter {
        b'z' => {
            *s = timing_loop::reset(*s);
            agrees
        }
        b'r' => run(s, op, buffers),
        _ => agrees || S::fields_agree(*s, op),
    }
}
