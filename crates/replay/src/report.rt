// Writing what was played. No contract can say what is written to a file, and a write that fails is passed over.

// Bytes that need not be text.
fn put(rt: &impl Print, bytes: &[u8]) {
    let _ = rt.write_all(bytes);
}

// Writes a line with a name and how many lines were played under it: two writes, so that what there is room for is out
// where one fails.
pub(crate) fn count(rt: &impl Print, name: &[u8], n: u64) {
    put(rt, name);
    let _ = println!(rt; " {n}");
}

// Writes the last line: how many answers there were, and how many of them differ.
pub(crate) fn summary(rt: &impl Print, answers: u64, differ: u64) {
    let _ = println!(rt; "{answers} answers, {differ} differ");
}

// Writes a recorded line whose answer is not the computed one. The line brings its line end.
pub fn differs(rt: &impl Print, line: &[u8], computed: u64) {
    let _ = print!(rt; "computed {computed:016x} for ");
    put(rt, line);
}

// Writes a recorded line that says something else than was computed.
pub(crate) fn missed(rt: &impl Print, line: &[u8]) {
    let _ = print!(rt; "missed ");
    put(rt, line);
}

// Writes a line that is not an operation.
pub fn malformed(rt: &impl Print, line: &[u8]) {
    let _ = print!(rt; "malformed: ");
    put(rt, line);
    let _ = println!(rt; "");
}
