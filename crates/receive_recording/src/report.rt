// What the program writes to standard output: the symbols and the summary. No contract can say what is written to a file.
// Once a write has failed, nothing more is written. The summary's parts are writes of their own: where the output fails
// inside the line, what there is room for is out.
use crate::Sofar;
use receiver::Receiver;
use recordings::Content;
use std::io;

// How many symbols a call puts out at most, and how many bytes their digits take with line ends.
const SYMBOLS: usize = 256;

const TEXT: usize = 512;

// Writes the digits of the first n symbols of the output, behind those that the receiver had counted.
pub(crate) fn symbols(
    rt: &impl Print,
    before: Receiver,
    output: &[f32],
    n: usize,
) -> io::Result<()> {
    let mut digits = [0u8; SYMBOLS];
    let count = recordings::write_digits(receiver::constellation(before), output, n, &mut digits);
    let mut text = [0u8; TEXT];
    let end = recordings::write_lines(receiver::count(before), &digits[..count], &mut text);
    rt.write_all(&text[..end])
}

// P8: how many symbols there are, how many of them read none, the pace with three decimals, and whether the carrier is
// locked.
fn figures(rt: &impl Print, r: Receiver, none: u64) -> io::Result<()> {
    let count = receiver::count(r);
    let pace = recordings::thousandths(receiver::sps_estimate(r));
    let whole = pace / 1000;
    let decimals = pace % 1000;
    let lock = if receiver::locked(r) {
        "locked"
    } else {
        "not locked"
    };
    print!(rt; "{count}")?;
    print!(rt; " symbols, ")?;
    print!(rt; "{none}")?;
    print!(rt; " of them none, ")?;
    print!(rt; "{whole}")?;
    print!(rt; ".")?;
    for digit in [decimals / 100, decimals / 10 % 10, decimals % 10] {
        print!(rt; "{digit}")?;
    }
    print!(rt; " samples per symbol, carrier ")?;
    println!(rt; "{lock}")
}

// P3: a recording in which there is nothing to receive gets a remark.
fn remark(rt: &impl Print, content: Content) -> io::Result<()> {
    match content {
        Content::Empty => println!(rt; "remark: the recording has no samples"),
        Content::Blank => println!(rt; "remark: every sample is silent or not finite"),
        Content::Signal => Ok(()),
    }
}

// Ends the last line of digits and writes the summary.
pub(crate) fn summary(rt: &impl Print, whole: Sofar) -> io::Result<()> {
    if receiver::count(whole.receiver) % recordings::WIDTH > 0 {
        println!(rt;)?;
    }
    figures(rt, whole.receiver, whole.none)?;
    remark(rt, whole.content)
}
