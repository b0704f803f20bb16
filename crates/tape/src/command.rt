// The commands of a tape.
ghost use Rattle.std.specs.Prelude.{◌≡◌};
ghost use Rattle.tape.specs.Command.{command_of};

use values::Refusal;

// O2: what the first byte of a command says.
#[derive(Clone, Copy)]
pub(crate) enum Command {
    Carrier,
    Timing,
    Samples,
    Reset,
}

impl TryFrom<u8> for Command {
    type Error = Refusal;

    ghost try_from_gives = { λ b answer. answer ≡ command_of b };

    fn try_from(b: u8) -> Result<Command, Refusal> {
        match b {
            0x01 => Ok(Command::Carrier),
            0x02 => Ok(Command::Timing),
            0x03 => Ok(Command::Samples),
            0x04 => Ok(Command::Reset),
            _ => Err(Refusal::Undefined),
        }
    }
}
