// A call over slices that the caller lends, from fallback/symbol_sync.rs. A run refuses nothing.
ghost use Rattle.std.specs.Prelude.{◌≡◌};
ghost use Rattle.timing.specs.Run.{Given, called_real};
ghost use Rattle.real_sync.specs.Views.{outcome_of, answered};

use timing_loop::{Recovered, recover};
use values::Progress;

// F3: the state of the loop over real samples.
pub type SymbolSyncState = timing::SymbolSyncState<f32>;

// The counts of a run, and the state after it.
pub type Ran = Recovered<f32>;

// T1: one call: the strobes go to the front of the output.
pub fn run(s: SymbolSyncState, input: &[f32], output: &mut [f32]) -> Ran
    requires { Given s }
    ensures outcome { answered result output.new ≡ called_real s input.now output.old }
    ensures given { Given result.state }
{
    recover(s, input, output)
}

// T25: `run` over a state that the caller lends; the new state is stored in it.
pub fn symbol_sync(s: &mut SymbolSyncState, input: &[f32], output: &mut [f32]) -> Progress
    requires { Given s.old }
    ensures outcome { outcome_of result s.new output.new ≡ called_real s.old input.now output.old }
    ensures given { Given s.new }
{
    let ran = run(*s, input, output);
    *s = ran.state;
    ran.progress
}
