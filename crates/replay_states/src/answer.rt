// Comparing the answer of a timing run with a line: its two counts in the second word, its number in the
// third.
ghost use Rattle.std.specs.Prelude.{◌≡◌};
ghost use Rattle.replay_states.specs.Answer.{same_progress, same_answer};

use answers::{HIGH, Operation, words_agree};
use values::{Progress, Refusal};

// Whether a run that is not refused has the counts that the line says.
pub fn progress_agrees(p: Progress, op: Operation) -> bool
    ensures { result ≡ same_progress p op }
{
    p.consumed as u64 == op.y % HIGH && p.produced as u64 == op.y / HIGH && op.answer == 0
}

// Whether a run answers what the line says.
pub fn answer_agrees(answer: Result<Progress, Refusal>, op: Operation) -> bool
    ensures { result ≡ same_answer answer op }
{
    match answer {
        Ok(p) => progress_agrees(p, op),
        Err(n) => words_agree(op.x, 0, n.number() as u64, op),
    }
}
