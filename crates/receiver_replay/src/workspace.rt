// The buffers of one receiver, and the words of its next set-up. A line is played on them as `replay::buffers` does it.
use crate::symbols::symbol_agrees;
use answers::Operation;
use replay::buffers::Buffers;

// Timing's words with the input and the output, and the carrier's with the strobe buffer, which no input goes with.
#[derive(Clone, Copy)]
pub(crate) struct Workspace {
    pub samples: Buffers,
    pub strobes: Buffers,
}

// The line as the carrier's words and the strobe buffer see it.
fn strobe_line(op: Operation) -> Operation {
    let letter = match op.letter {
        b'c' => b'v',
        b't' => b'o',
        b'r' => b'r',
        _ => 0,
    };
    Operation { letter, ..op }
}

impl Workspace {
    // Before the first line.
    pub(crate) fn new() -> Self {
        Workspace {
            samples: Buffers::new(),
            strobes: Buffers::new(),
        }
    }

    // Plays a line on the buffers. Answers whether it agrees, or false if the receiver has to say so.
    pub(crate) fn play(&mut self, op: Operation) -> bool {
        let agrees = self.samples.play(op);
        let found = self.strobes.play(strobe_line(op));
        symbol_agrees(op, found || agrees)
    }
}
