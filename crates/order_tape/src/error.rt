// What ends the program before its tape has ended, and how it is said on error output. No contract can say what is written
// to a file.
use crate::command::Broken;
use std::io::ErrorKind;
use std::{fmt, io};
use values::Refusal;

#[derive(Clone, Copy)]
pub(crate) enum Error {
    // Arguments were given.
    Arguments,
    Read(io::Error),
    Write(io::Error),
    // A command is refused, or the tape ends inside one.
    Refused(Refusal),
    // More commands follow than are carried out.
    TooLong,
}

impl From<Refusal> for Error {
    fn from(reason: Refusal) -> Error {
        Error::Refused(reason)
    }
}

impl From<Broken> for Error {
    fn from(broken: Broken) -> Error {
        Error::Read(broken.why)
    }
}

// A refusal is its number alone; what else goes wrong is said in words.
impl fmt::Display for Error {
    fn fmt<W: fmt::Write>(&self, f: &mut fmt::Formatter<W>) -> fmt::Result {
        match self {
            Error::Arguments => {
                f.write_str("order_tape takes no arguments: the tape comes on standard input")
            }
            Error::Read(why) => write!(f, "order_tape: standard input cannot be read: {why}"),
            Error::Write(why) => {
                write!(f, "order_tape: standard output cannot be written: {why}")
            }
            Error::Refused(reason) => write!(f, "{}", reason.number()),
            Error::TooLong => f.write_str("order_tape: the tape is too long"),
        }
    }
}

// Says what ended the program, but not where the reader of a pipe has gone. Kept in each program: a function that
// programs share needs a contract, and none can say what is written.
pub(crate) fn tell(rt: &impl Eprint, error: Error) {
    match error {
        Error::Write(why) if why.kind() == ErrorKind::BrokenPipe => {}
        _ => {
            let _ = eprintln!(rt; "{error}");
        }
    }
}
