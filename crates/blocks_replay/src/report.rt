// What the program writes. No contract can say what is written to a file, and a write that fails is passed over. The
// parts of a line are writes of their own, so that what there is room for is out where one fails.
use crate::cuts::Cut;
use crate::set_ups::Kinds;
use crate::tally::Tally;

// Begins the line of a set-up and a recording.
pub(crate) fn heading(rt: &impl Print, kinds: Kinds, name: &str) {
    let _ = print!(rt; "{}", kinds.detector_name());
    let _ = print!(rt; ", {}, ", kinds.constellation_name());
    let _ = print!(rt; "{name}");
    let _ = print!(rt; ": ");
}

// Names a cut, if it differs.
pub(crate) fn cut(rt: &impl Print, cut: Cut, agrees: bool) {
    if !agrees {
        let _ = print!(rt; "blocks of ");
        let _ = print!(rt; "{}", cut.block);
        let _ = print!(rt; " with ");
        let _ = print!(rt; "{}", cut.places);
        let _ = print!(rt; " places differ, ");
    }
}

// Writes how many cuts there are, and how many of them differ.
pub(crate) fn total(rt: &impl Print, t: Tally) {
    let _ = print!(rt; "{}", t.cuts);
    let _ = print!(rt; " cuts, ");
    let _ = print!(rt; "{}", t.differ);
    let _ = println!(rt; " differ");
}

// Ends the line.
pub(crate) fn line(rt: &impl Print, t: Tally) {
    let _ = print!(rt; "{}", t.consumed);
    let _ = print!(rt; " samples, ");
    let _ = print!(rt; "{}", t.produced);
    let _ = print!(rt; " symbols, ");
    total(rt, t);
}

// Says that the input is not a recording of the length expected.
pub(crate) fn wrong_length(rt: &impl Print) {
    let _ = println!(rt; "the input is not 4000 samples");
}
