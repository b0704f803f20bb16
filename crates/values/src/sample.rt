// A complex sample of two f32, and how it lies in a slice.
ghost use Rattle.std.specs.Prelude.{◌≡◌, get_or};
ghost use Rattle.values.specs.Samples.{silence, samples, stored};

// A1: a complex sample.
#[repr(C)]
#[derive(Clone, Copy)]
pub struct C32 {
    pub re: f32,
    pub im: f32,
}

// Sample k of a slice; past the last whole sample there is silence.
pub fn sample_at(input: &[f32], k: usize) -> C32
    ensures { result ≡ get_or (samples input.now) k silence }
{
    if k < input.len() / 2 {
        C32 {
            re: input[2 * k],
            im: input[2 * k + 1],
        }
    } else {
        C32 { re: 0.0, im: 0.0 }
    }
}

// Stores y as sample k of a slice; past the last whole sample nothing is stored.
pub fn store_sample(output: &mut [f32], k: usize, y: C32)
    ensures { output.new ≡ stored output.old k y }
{
    if k < output.len() / 2 {
        output[2 * k] = y.re;
        output[2 * k + 1] = y.im;
    }
}
