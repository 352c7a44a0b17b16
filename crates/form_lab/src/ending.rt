// How the program ends.
ghost use Rattle.std.specs.Prelude.{◌≡◌, option_copied};
ghost use Rattle.std.specs.Process.{exit_status};
ghost use Rattle.form_lab.specs.Ending.{line_after, line_of, exit_code_of};

use form_run::{Status, code};
use std::process::ExitCode;

/// The exit status where the words of the command line can't be read.
const NO_WORDS: u8 = 10;

/// How the program ends.
#[derive(Clone, Copy, Debug, PartialEq, Eq)]
pub enum Ending {
    /// The run ended so.
    Ran(Status),
    /// The words of the command line can't be read, for another cause than memory.
    NoWords,
}

// The line after a run.
fn line_after(status: &Status) -> Option<&'static str>
    ensures { option_copied result ≡ line_after status.now }
{
    match status {
        Status::Done => None,
        Status::Page => Some("form_lab: page refused"),
        Status::Usage => Some("form_lab: usage: form_lab BASE [FILE ...] | --generate N"),
        Status::ReadFault => Some("form_lab: read fault"),
        Status::WriteFault => Some("form_lab: write fault"),
        Status::FileFault => Some("form_lab: file fault"),
        Status::Memory => Some("form_lab: no memory"),
        Status::TooLong => Some("form_lab: input too long"),
        Status::FileChanged(_, _) => Some("form_lab: file changed"),
    }
}

impl Ending {
    /// The line on standard error, without its end; there is none where the transcript was written
    /// whole.
    pub fn line(&self) -> Option<&'static str>
        ensures { option_copied result ≡ line_of self.now }
    {
        match self {
            Ending::Ran(status) => line_after(status),
            Ending::NoWords => Some("form_lab: words not read"),
        }
    }

    /// The exit status.
    pub fn exit_code(&self) -> ExitCode
        ensures { exit_status result ≡ exit_code_of self.now }
    {
        match self {
            Ending::Ran(status) => ExitCode::from(code(status)),
            Ending::NoWords => ExitCode::from(NO_WORDS),
        }
    }
}
