// Comparing a line with a row of a state's words.
ghost use Rattle.std.specs.Prelude.{◌≡◌, ℕ};
ghost use Rattle.replay_states.specs.Words.{same_row, forgiven, timing_words, carrier_words};

use crate::words::{carrier_words, timing_words};
use answers::{Operation, alike, of_bits, words_agree};
use carrier::CostasState;
use complex_sync::SymbolSyncState;

// The integrator's place among the words of a timing state.
const INTEGRATOR: usize = 18;

fn row_agrees(words: &[u64], row: usize, op: Operation) -> bool
    ensures { result ≡ same_row words.now row op }
{
    if row >= words.len() / 3 {
        return false;
    }
    let at = 3 * row;
    words_agree(words[at], words[at + 1], words[at + 2], op)
}

// Of the integrator the number is compared (N10), since the original leaves the sign of its zero open.
fn forgive(words: [u64; 21], op: Operation) -> [u64; 21]
    ensures { result ≡ forgiven words op }
{
    let mut all = words;
    if alike::<f64>(of_bits(all[INTEGRATOR]), of_bits(op.x)) {
        all[INTEGRATOR] = op.x;
    }
    all
}

// The row of a timing state that a letter names, or one that there is not. Kept as a number: `same_row` says what comes
// of a row that is not there.
fn timing_row(letter: u8) -> usize {
    match letter {
        b'a' => 0,
        b'b' => 1,
        b'k' => 2,
        b's' => 3,
        b'h' => 4,
        b'y' => 5,
        b'f' => 6,
        _ => 7,
    }
}

// Whether a line has the fields of a timing state that its letter names.
pub fn timing_agrees(s: SymbolSyncState, op: Operation) -> bool
    ensures { (k : ℕ) × (result ≡ same_row (forgiven (timing_words s) op) k op) }
{
    let words = forgive(timing_words(s), op);
    row_agrees(&words, timing_row(op.letter), op)
}

// Whether a line has a row of a carrier state.
pub fn carrier_agrees(s: CostasState, row: usize, op: Operation) -> bool
    ensures { result ≡ same_row (carrier_words s) row op }
{
    row_agrees(&carrier_words(s), row, op)
}
