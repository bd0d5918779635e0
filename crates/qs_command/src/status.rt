//! How the program ends.

ghost use Rattle.std.specs.Prelude.{◌≡◌};
ghost use Rattle.std.specs.Process.{exit_status};
ghost use Rattle.qs_command.specs.Statuses.{number_of};

use std::process::ExitCode;

/// The status with which the program ends. Its number is the exit status of the process.
#[derive(Clone, Copy, Debug, PartialEq, Eq)]
pub enum Status {
    /// The whole text was written.
    Done = 0,
    /// The words give no job; the usage line was written.
    Usage = 1,
    /// The text that was read isn't accepted; the line that tells its first fault was written.
    Refused = 2,
    /// A grammar needs more firings than the limit; the text up to the line that says so was written.
    Limit = 3,
    /// The source failed; nothing was written.
    ReadFault = 4,
    /// The source has more bytes than a text may have; nothing was written.
    TooLong = 5,
    /// The sink failed; a proper prefix of the text was written.
    WriteFault = 6,
    /// There was no memory; nothing was written, or the first blocks of the text, each of them whole, fewer than all.
    Memory = 7,
}

/// The exit code of the process that ends with this status.
pub fn exit_code(status: Status) -> ExitCode
    ensures { exit_status result ≡ number_of status }
{
    ExitCode::from(status as u8)
}
