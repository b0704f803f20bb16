// P4: what ends the program before it has received the recording, and how it is said on error output. No contract can say
// what is written to a file.
use standard_input::Broken;
use std::io::ErrorKind;
use std::{fmt, io};
use values::Refusal;

#[derive(Clone, Copy)]
pub(crate) enum Error {
    // Arguments were given.
    Arguments,
    Read(io::Error),
    Write(io::Error),
    // A set-up or a call is refused, with this number, as `Received` has it.
    Refused(u32),
    // The input ends inside a sample.
    CutShort,
    // More blocks follow than are read.
    TooLong,
}

impl From<Refusal> for Error {
    fn from(reason: Refusal) -> Error {
        Error::Refused(reason.number())
    }
}

impl From<Broken> for Error {
    fn from(broken: Broken) -> Error {
        Error::Read(broken.why)
    }
}

impl fmt::Display for Error {
    fn fmt<W: fmt::Write>(&self, f: &mut fmt::Formatter<W>) -> fmt::Result {
        match self {
            Error::Arguments => f.write_str(
                "receive_recording takes no arguments: the recording comes on standard input",
            ),
            Error::Read(why) => {
                write!(f, "receive_recording: standard input cannot be read: {why}")
            }
            Error::Write(why) => {
                write!(
                    f,
                    "receive_recording: standard output cannot be written: {why}"
                )
            }
            Error::Refused(number) => {
                write!(
                    f,
                    "receive_recording: the receiver refuses with number {number}"
                )
            }
            Error::CutShort => f.write_str("receive_recording: the input ends inside a sample"),
            Error::TooLong => f.write_str("receive_recording: the input is too long"),
        }
    }
}

// Says what ended the program, but not where the reader of a pipe has gone. Kept in each program: a function that
// programs share needs a contract, and none can say what is written.
pub(crate) fn tell(rt: &impl Eprint, error: Error) {
    match error {
        Error::Write(why) if why.kind() == ErrorKind::BrokenPipe => {}
        _ => {
            let _ = eprintln!(rt; "{error}");
        }
    }
}
