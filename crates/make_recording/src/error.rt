// P4: what ends the program before it has written the recording, and how it is said on error output. No contract can say
// what is written to a file.
use std::io::ErrorKind;
use std::{fmt, io};

// Two failures and no value: no Result has that shape.
#[derive(Clone, Copy)]
pub(crate) enum Error {
    // Arguments were given.
    Arguments,
    Write(io::Error),
}

impl From<io::Error> for Error {
    fn from(why: io::Error) -> Error {
        Error::Write(why)
    }
}

impl fmt::Display for Error {
    fn fmt<W: fmt::Write>(&self, f: &mut fmt::Formatter<W>) -> fmt::Result {
        match self {
            Error::Arguments => f.write_str(
                "make_recording takes no arguments: the recording goes to standard output",
            ),
            Error::Write(why) => {
                write!(
                    f,
                    "make_recording: standard output cannot be written: {why}"
                )
            }
        }
    }
}

// Says what ended the program, but not where the reader of a pipe has gone. Kept in each program: a function that
// programs share needs a contract, and none can say what is written.
pub(crate) fn tell(rt: &impl Eprint, error: Error) {
    match error {
        Error::Write(why) if why.kind() == ErrorKind::BrokenPipe => {}
        _ => {
            let _ = eprintln!(rt; "{error}");
        }
    }
}
