// The refusals of a call and their numbers (E1 to E11).
ghost use Rattle.std.specs.Prelude.{◌≡◌};
ghost use Rattle.values.specs.Refusal.{number_of};

// Why a call is refused. An infinity and a NaN lie outside every range.
#[derive(Clone, Copy)]
pub enum Refusal {
    // E1: the samples per symbol are outside 2 to 1,000,000.
    Pace,
    // E2: the loop bandwidth is outside its range.
    Width,
    // E3: the damping is outside 0.1 to 4.
    Damping,
    // E4: the maximum deviation or the maximum offset is outside its range.
    Pull,
    // E5: the detector gain is not above 0, or not finite.
    Slope,
    // E6: kp or ki of a timing loop is not finite.
    Gains,
    // E7: two buffers that must be equally long are not.
    Uneven,
    // E8: a complex buffer ends inside a sample.
    Odd,
    // E9: a command or selector is not defined, or a tape's count of samples is above 2,048.
    Undefined,
    // E10: a tape ends inside a command.
    Cut,
    // E11: a tape brings samples or a reset before both set-ups.
    Early,
}

impl Refusal {
    // A2: the number of the refusal, by its name in the specification.
    pub fn number(self) -> u32
        ensures { result ≡ number_of self }
    {
        u32::from(self)
    }
}

impl From<Refusal> for u32 {
    ghost from_gives = { λ refusal number. number ≡ number_of refusal };

    fn from(refusal: Refusal) -> u32 {
        match refusal {
            Refusal::Pace => 1,
            Refusal::Width => 2,
            Refusal::Damping => 3,
            Refusal::Pull => 4,
            Refusal::Slope => 5,
            Refusal::Gains => 6,
            Refusal::Uneven => 7,
            Refusal::Odd => 8,
            Refusal::Undefined => 9,
            Refusal::Cut => 10,
            Refusal::Early => 11,
        }
    }
}
