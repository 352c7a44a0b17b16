ghost use Rattle.std.specs.Prelude.{◌≡◌};
ghost use Rattle.form_run.specs.Transcript.{code_of};

/// How a run ended.
#[derive(Clone, Copy, Debug, PartialEq, Eq)]
pub enum Status {
    /// The input was read to its end, and the whole transcript was written.
    Done,
    /// The input is not UTF-8, or its page is refused; the one line that says so was written.
    Page,
    /// The words name no document and ask for no generated page. Nothing was read or written.
    Usage,
    /// The source failed. Nothing was written.
    ReadFault,
    /// The sink failed. What was written is a front of the transcript.
    WriteFault,
    /// A file failed. What was written is a front of the transcript.
    FileFault,
    /// There was no memory. What was written is a front of the transcript.
    Memory,
    /// The input has more than 16,777,216 bytes. Nothing was written.
    TooLong,
    /// A file gave so many bytes, the first number, and then another number of them, the second.
    /// What was written is a front of the transcript.
    FileChanged(u64, u64),
}

/// The exit code of a status.
pub fn code(status: &Status) -> u8
    ensures { result ≡ code_of status.now }
{
    match status {
        Status::Done => 0,
        Status::Page => 1,
        Status::Usage => 2,
        Status::ReadFault => 3,
        Status::WriteFault => 4,
        Status::FileFault => 5,
        Status::Memory => 6,
        Status::TooLong => 7,
        Status::FileChanged(_, _) => 8,
    }
}
