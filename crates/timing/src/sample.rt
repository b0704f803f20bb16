// What the timing loop asks of a sample type: its arithmetic, and how samples lie in a slice of f32.
ghost use Rattle.std.specs.Prelude.{◌≡◌, ◌*◌, ◌<◌, length, slice_index_or};
ghost use Rattle.std.proofs.lemmas.List.Edits.{sets};
ghost use Rattle.timing.specs.Sample.{Ops};
ghost use Rattle.timing.specs.Form.{Form};
ghost use Rattle.timing.specs.FormLaws.{FormLaws};

// T7: four samples in a row, of which a value between x0 and x1 is made.
#[derive(Clone, Copy)]
pub struct Window<S> {
    pub xm1: S,
    pub x0: S,
    pub x1: S,
    pub x2: S,
}

// K6: a sample type, real or complex.
pub trait Sample: Copy {
    // The arithmetic of a sample, and how samples lie in a slice of f32.
    ghost ops: { Ops Self };

    ghost form: { Form Self };

    fn zero() -> Self
        ensures { result ≡ ops.zero };

    // T8, F5: the value mu after x0.
    fn interp(w: Window<Self>, mu: f32) -> Self
        ensures { result ≡ ops.interp w.xm1 w.x0 w.x1 w.x2 mu };

    // T14: the Gardner error.
    fn gardner(y_prev: Self, y: Self, m: Self) -> f32
        ensures { result ≡ ops.gardner y_prev y m };

    // T15: the decision of a strobe.
    fn decide(y: Self) -> Self
        ensures { result ≡ ops.decide y };

    // T15: the Mueller-Müller error.
    fn mm(d_prev: Self, y: Self, d: Self, y_prev: Self) -> f32
        ensures { result ≡ ops.mm d_prev y d y_prev };

    // How many whole samples a slice of n f32 has.
    fn count(n: usize) -> usize
        ensures { result ≡ form.count n };

    // Sample k of a slice.
    fn sample_at(input: &[f32], k: usize) -> Self
        requires { k < form.count (length input.now) }
        ensures { result ≡ slice_index_or (form.samples input.now) k ops.zero };

    // Stores y as sample k of a slice.
    fn store_sample(output: &mut [f32], k: usize, y: Self)
        requires { k < form.count (length output.old) }
        ensures { output.new ≡ sets output.old (form.width * k) (form.floats y) };

    // What each form keeps.
    ghost laws: { FormLaws form };
}
