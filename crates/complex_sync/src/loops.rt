// A call over slices that the caller lends, from fallback/symbol_sync.rs.
ghost use Rattle.std.specs.Prelude.{◌≡◌};
ghost use Rattle.timing.specs.Run.{Given, called_complex};
ghost use Rattle.complex_sync.specs.Views.{outcome_of, answered};

use timing_loop::recover;
use values::{C32, Progress, Refusal};

// F3: the state of the loop over complex samples.
pub type SymbolSyncState = timing::SymbolSyncState<C32>;

// The answer of a run, and the state after it.
#[derive(Clone, Copy)]
pub struct Ran {
    pub answer: Result<Progress, Refusal>,
    pub state: SymbolSyncState,
}

// T1: one call: the strobes go to the front of the output.
// An odd buffer is refused (E8), and then nothing changes.
pub fn run(s: SymbolSyncState, input: &[f32], output: &mut [f32]) -> Ran
    requires { Given s }
    ensures outcome { answered result output.new ≡ called_complex s input.now output.old }
    ensures given { Given result.state }
{
    if input.len() % 2 == 1 || output.len() % 2 == 1 {
        return Ran {
            answer: Err(Refusal::Odd),
            state: s,
        };
    }
    let done = recover(s, input, output);
    Ran {
        answer: Ok(done.progress),
        state: done.state,
    }
}

// T25: `run` over a state that the caller lends; the new state is stored in it.
pub fn symbol_sync(
    s: &mut SymbolSyncState,
    input: &[f32],
    output: &mut [f32],
) -> Result<Progress, Refusal>
    requires { Given s.old }
    ensures outcome { outcome_of result s.new output.new ≡ called_complex s.old input.now output.old }
    ensures given { Given s.new }
{
    let ran = run(*s, input, output);
    *s = ran.state;
    ran.answer
}
