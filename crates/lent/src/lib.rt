// An entry over a state that the caller lends (F9): the state is taken by value, the call made, and the state after it
// written back. Proved once, for any state and answer: the entry meets what the call by value does, over the lent
// state, and a caller of the entry meets it by value again. With one lent output, and with two.
#![tactic(auto)]

ghost use Rattle.std.specs.Prelude.{List, Float};

// What a call by value returns: its answer, and the state after it.
#[derive(Drop)]
pub struct Ran<A, S> {
    pub answer: A,
    pub state: S,
}

// A state with a call by value, over an input and one output.
pub trait Call<A>: Copy {
    // What the call requires of the state.
    ghost Needs: { Self → Type 0 };
    // What it ensures of the state after it.
    ghost Again: { Self → Type 0 };
    // What it ensures of its answer, the state and the output after it, over the state, the input and the output before.
    ghost Outcome: { A → Self → List Float → Self → List Float → List Float → Type 0 };

    fn run(self, input: &[f32], output: &mut [f32]) -> Ran<A, Self>
        requires { Needs self }
        ensures outcome { Outcome result.answer result.state output.new self input.now output.old }
        ensures again { Again result.state };
}

// The entry over a lent state.
pub fn entry<A, S: Call<A>>(s: &mut S, input: &[f32], output: &mut [f32]) -> A
    requires { S.Needs s.old }
    ensures outcome { S.Outcome result s.new output.new s.old input.now output.old }
    ensures again { S.Again s.new }
{
    let ran = S::run(*s, input, output);
    *s = ran.state;
    ran.answer
}

// A caller of it, which has the state by value.
pub fn caller<A, S: Call<A>>(s: S, input: &[f32], output: &mut [f32]) -> Ran<A, S>
    requires { S.Needs s }
    ensures outcome { S.Outcome result.answer result.state output.new s input.now output.old }
    ensures again { S.Again result.state }
{
    let mut lent = s;
    let answer = entry(&mut lent, input, output);
    Ran {
        answer: answer,
        state: lent,
    }
}

// A state with a call by value, over an input and two outputs.
// Kept beside `Call`: what is lent can be no type parameter, since no clause can say what a value of one holds after the
// call.
pub trait CallOfTwo<A>: Copy {
    // What the call requires of the state.
    ghost Needs: { Self → Type 0 };
    // What it ensures of the state after it.
    ghost Again: { Self → Type 0 };
    // What it ensures of its answer, the state and both outputs after it, over the state, the input and the outputs
    // before.
    ghost Outcome: { A → Self → List Float → List Float → Self → List Float → List Float → List Float → Type 0 };

    fn run(self, input: &[f32], first: &mut [f32], second: &mut [f32]) -> Ran<A, Self>
        requires { Needs self }
        ensures outcome { Outcome result.answer result.state first.new second.new self input.now first.old second.old }
        ensures again { Again result.state };
}

// The entry over a lent state, with two outputs.
pub fn entry_of_two<A, S: CallOfTwo<A>>(
    s: &mut S,
    input: &[f32],
    first: &mut [f32],
    second: &mut [f32],
) -> A
    requires { S.Needs s.old }
    ensures outcome { S.Outcome result s.new first.new second.new s.old input.now first.old second.old }
    ensures again { S.Again s.new }
{
    let ran = S::run(*s, input, first, second);
    *s = ran.state;
    ran.answer
}

// A caller of it, which has the state by value.
pub fn caller_of_two<A, S: CallOfTwo<A>>(
    s: S,
    input: &[f32],
    first: &mut [f32],
    second: &mut [f32],
) -> Ran<A, S>
    requires { S.Needs s }
    ensures outcome { S.Outcome result.answer result.state first.new second.new s input.now first.old second.old }
    ensures again { S.Again result.state }
{
    let mut lent = s;
    let answer = entry_of_two(&mut lent, input, first, second);
    Ran {
        answer: answer,
        state: lent,
    }
}
