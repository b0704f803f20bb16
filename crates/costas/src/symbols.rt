// The run over slices that the caller lends: one output sample for each input sample.
ghost use Rattle.std.specs.Prelude.{◌≡◌, Ok, Err};
ghost use Rattle.values.specs.Samples.{parts};
ghost use Rattle.values.specs.Buffers.{written};
ghost use Rattle.cosine.specs.Table.{cos_list};
ghost use Rattle.carrier.specs.Step.{runs};
ghost use Rattle.carrier.specs.State.{Given};
ghost use Rattle.carrier.specs.Run.{carried, called};
ghost use Rattle.costas.specs.Answered.{outcome_of, answered, reached};

use carrier::{CostasConstellation, CostasState, Params, Track};
use values::Refusal;

// The answer of a run, and the state after it.
#[derive(Clone, Copy)]
pub struct Ran {
    pub answer: Result<(), Refusal>,
    pub state: CostasState,
}

// The symbols that both buffers have whole, after the carrier is removed: as many output samples stand at the
// front of the output then, and the rest is as found. The table is taken once a run and lent: each mention of
// it would be stored anew.
fn symbols(
    constellation: CostasConstellation,
    p: Params,
    t: Track,
    input: &[f32],
    output: &mut [f32],
) -> Track
    ensures last { result ≡ (runs cos_list constellation p t (reached input.now output.old)).last }
    ensures output { output.new ≡ written (parts (runs cos_list constellation p t (reached input.now output.old)).values) output.old }
{
    let table = tables::cos_f32_table();
    let n = (input.len() / 2).min(output.len() / 2);
    let mut t = t;
    for k in 0..n {
        let x = values::sample_at(input, k);
        let q = mix::interp_f32_pair(&table, t.nco.phase);
        let y = carrier::derotate(x, q);
        values::store_sample(output, k, y);
        t = carrier::step(constellation, p, t, y);
    }
    t
}

// C24: a run that refuses nothing. The loop is a function of its own, which is handed what it changes and what it
// reads: a whole state handed to it and back is moved about in memory, which shows in short calls.
pub fn carry(s: CostasState, input: &[f32], output: &mut [f32]) -> CostasState
    requires { Given s }
    ensures outcome { outcome_of (Ok tt) result output.new ≡ carried s input.now output.old }
    ensures given { Given result }
{
    let last = symbols(s.constellation, s.params, s.track, input, output);
    CostasState { track: last, ..s }
}

// A refused call.
fn refused(n: Refusal, s: CostasState) -> Ran
    ensures { result ≡ record { answer = Err n; state = s } }
{
    Ran {
        answer: Err(n),
        state: s,
    }
}

// C1: one call. An odd count of f32 in the input or the output is refused, then lengths that differ, with the
// same state and the output as found.
pub fn run(s: CostasState, input: &[f32], output: &mut [f32]) -> Ran
    requires { Given s }
    ensures outcome { answered result output.new ≡ called s input.now output.old }
    ensures given { Given result.state }
{
    if input.len() % 2 == 1 || output.len() % 2 == 1 {
        return refused(Refusal::Odd, s);
    }
    if input.len() != output.len() {
        return refused(Refusal::Uneven, s);
    }
    let state = carry(s, input, output);
    Ran {
        answer: Ok(()),
        state: state,
    }
}
