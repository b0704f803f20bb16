// A recording with damaged samples.

// What takes the place of an f32 that is damaged, in turn: NaN, the infinities, the smallest subnormal, -0.0, the
// largest number.
const DAMAGES: [u32; 6] = [
    0x7fc00000, 0x7f800000, 0xff800000, 0x00000001, 0x80000000, 0x7f7fffff,
];

// Damages one f32 in 97: now a real part, now an imaginary one.
pub(crate) fn damage(samples: &mut [f32]) {
    for (i, x) in samples.iter_mut().enumerate() {
        if i % 97 == 96 {
            *x = patterns::of_bits(DAMAGES[i / 97 % 6]);
        }
    }
}
