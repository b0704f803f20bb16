// Playing a line on a state of complex samples.
ghost use Rattle.timing.specs.Run.{Given};

use crate::timed::{Played, Ran};
use answers::Operation;
use replay_states::timing_agrees;
use timing::SymbolSyncState;
use values::C32;

impl Played for C32 {
    fn run(s: SymbolSyncState<C32>, input: &[f32], output: &mut [f32]) -> Ran<C32>
        requires { Given s }
        ensures { Given result.state }
    {
        let ran = complex_sync::run(s, input, output);
        Ran {
            state: ran.state,
            answer: ran.answer,
        }
    }

    fn fields_agree(s: SymbolSyncState<C32>, op: Operation) -> bool {
        timing_agrees(s, op)
    }
}
