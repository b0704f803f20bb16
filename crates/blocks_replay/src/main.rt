// P7: receives one recording, which stands on standard input, cut into blocks in several ways, and compares
// each cut with the recording received whole, bit for bit: the counts, every strobe, every output sample and
// every field of the record at the end. They are equal for every cut (B3).
//
// The recording has 4,000 complex f32 samples, little-endian, real part first. Both detectors and all
// constellations receive it, as recorded and with parts of its samples damaged.
#![tactic(auto)]

mod calls;
mod compare;
mod cuts;
mod damage;
mod report;
mod set_ups;
mod tally;

use set_ups::{CONSTELLATIONS, DETECTORS, Kinds};
use tally::Tally;

// How many bytes a recording has.
const BYTES: usize = 32000;

// Compares the cuts of a recording under a set-up, and writes the line of it.
fn show(rt: &impl Print, kinds: Kinds, input: &[f32], name: &str) -> Tally {
    report::heading(rt, kinds, name);
    let tally = compare::compare_cuts(rt, set_ups::set_up(kinds), input);
    report::line(rt, tally);
    tally
}

// Every set-up receives both recordings.
fn compare_all(rt: &impl Print, recorded: &[f32], damaged: &[f32]) -> Tally {
    let mut total = Tally::start(0, 0);
    for detector in DETECTORS {
        for constellation in CONSTELLATIONS {
            let kinds = Kinds {
                detector: detector,
                constellation: constellation,
            };
            total = total.plus(show(rt, kinds, recorded, "as recorded"));
            total = total.plus(show(rt, kinds, damaged, "damaged"));
        }
    }
    total
}

fn main(rt: HostRuntime) {
    let mut reader = rt.reader();
    let mut bytes = [0u8; 32008];
    let n = replay::read_full(&mut reader, &mut bytes);
    if n != BYTES {
        report::wrong_length(&rt);
        return;
    }
    let mut recorded = [0.0f32; 8000];
    recordings::read_samples(&bytes[..n], &mut recorded);
    let mut damaged = recorded;
    damage::damage(&mut damaged);
    report::total(&rt, compare_all(&rt, &recorded, &damaged));
}
