//! How a run ends.

ghost use Rattle.std.specs.Prelude.{◌≡◌};
ghost use Rattle.dn_run.specs.Exit.{exit_number};

/// What a run comes to, before its text is written.
#[derive(Clone, Copy, Debug, PartialEq, Eq)]
pub enum Verdict {
    /// All was accepted, each feed was read to its end, and no frame was refused.
    Done,
    /// All was accepted and no fault came, but a frame was refused, or some feed ended in another way.
    Refusals,
    /// The words, a part, a feed's router or the number of jobs is refused.
    BadWords,
    /// The topology is refused.
    BadTopology,
    /// The script is refused.
    BadScript,
    /// A file could not be opened, or failed while it was read.
    ReadFault,
}

/// The exit status of a run.
#[derive(Clone, Copy, Debug, PartialEq, Eq)]
pub enum Status {
    /// All was accepted, each feed was read to its end, no frame was refused, and the report was written whole.
    Done = 0,
    /// The report was written whole, but a frame was refused, or some feed ended in another way than its end.
    Refusals = 1,
    /// The words, a part, a feed's router or the number of jobs is refused, and the error line was written.
    BadWords = 2,
    /// The topology is refused, and the error line was written.
    BadTopology = 3,
    /// The script is refused, and the error line was written.
    BadScript = 4,
    /// A file failed; the error line, or a feed's end in the report, names it.
    ReadFault = 5,
    /// The sink failed; what was written is a front of the text that was due.
    WriteFault = 6,
    /// Memory was wanted; nothing was written.
    OutOfMemory = 7,
}

impl Status {
    /// The number that the program exits with.
    pub fn number(self) -> u8
        ensures { result ≡ exit_number self }
    {
        self as u8
    }
}
