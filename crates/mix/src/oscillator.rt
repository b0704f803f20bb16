// Cosine and sine of a phase, by interpolation in a table.
ghost use Rattle.std.specs.Prelude.{◌≡◌};
ghost use Rattle.mix.specs.Oscillator.{pair_at};

// 2^20: the table's index stands above the low 20 bits of a phase, the fraction in them.
const ENTRY: u32 = 0x10_0000;

// 2^30: a quarter turn.
const QUARTER: u32 = 0x4000_0000;

// 2^3: the fraction's 20 bits stand at the top of the 23 of an f32, with three zeros behind them.
const ZEROS: u32 = 0x8;

// The bits of 1.0: what is put below them are the digits behind its leading one.
const ONE_BITS: u32 = 0x3f80_0000;

// Cosine and sine of a phase.
#[derive(Clone, Copy)]
pub struct Pair {
    pub c: f32,
    pub s: f32,
}

// C12: cosine and sine of the phase p, whose 32 bits are one turn, by linear interpolation in the lent table
// of cosines. The sine is the cosine a quarter turn before: p - 2^30 has the same low 20 bits and the table
// index (idx + 3072) mod 4096. The fraction f is made of its bits: with 3 zeros behind them the low 20 bits
// of p are the digits of 1 + f.
pub fn interp_f32_pair(table: &[f32; 4097], p: u32) -> Pair
    ensures { result ≡ pair_at table.now p }
{
    let idx = (p / ENTRY) as usize;
    let sidx = (std::num::wrapping_sub_u32(p, QUARTER) / ENTRY) as usize;
    let f = f32::from_bits(p % ENTRY * ZEROS + ONE_BITS) - 1.0;
    let a = table[idx];
    let b = table[idx + 1];
    let sa = table[sidx];
    let sb = table[sidx + 1];
    Pair {
        c: a + (b - a) * f,
        s: sa + (sb - sa) * f,
    }
}
