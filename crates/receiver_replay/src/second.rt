// Playing a line on the turned receiver.
use crate::first::Played;
use crate::turned::{Turns, buffers_turned, phase_on, records_turned, turn_all};
use crate::workspace::Workspace;
use answers::{Operation, of_bits};
use replay::buffers::FILLING;

impl Played {
    // Runs the second receiver, and compares it with the first. The first has had its input, which is turned where it
    // stands.
    fn run_turned(
        &mut self,
        first: &Played,
        op: Operation,
        turns: Turns,
        work: &mut Workspace,
    ) -> bool {
        turn_all(&mut work.samples.input, turns.samples);
        let mut strobes = [of_bits(FILLING); 192];
        let mut output = [of_bits(FILLING); 192];
        let agrees = self.run(op, &work.samples.input, &mut strobes, &mut output);
        let lent = buffers_turned(op, work, &strobes, &output, turns);
        agrees && lent && records_turned(first.r, self.r, turns.phase)
    }

    // Plays a line on the second receiver, and says of a run whether it agrees. It is set up as the first one is, since
    // that was just done.
    pub(crate) fn play_turned(
        &mut self,
        first: &Played,
        op: Operation,
        turns: Turns,
        work: &mut Workspace,
    ) -> bool {
        // Kept as a match: the letters are the file's.
        match op.letter {
            b'r' => return self.run_turned(first, op, turns, work),
            b'n' | b'u' => {
                *self = *first;
                self.set_phase(phase_on(0, turns.phase));
            }
            b'z' => {
                self.reset();
                self.set_phase(phase_on(0, turns.phase));
            }
            b'p' => self.set_phase(phase_on(op.x, turns.phase)),
            b'j' => self.set_count(op.x),
            b'x' => self.convert(),
            _ => {}
        }
        false
    }
}
