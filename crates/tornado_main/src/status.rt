ghost use Rattle.std.specs.Prelude.{◌≡◌};
ghost use Rattle.tornado_main.specs.Status.{code};

/// How a run of the program ends.
#[derive(Debug, Clone, Copy, PartialEq, Eq, Drop)]
pub enum Status {
    /// The work is done, and its answer was written.
    Done,
    /// The work is done, and what was written is the finding of the command.
    Found,
    /// The words are no order.
    Usage,
    /// The file is refused.
    Source,
    /// A file could not be read.
    Unread,
    /// The output could not be written.
    Unwritten,
    /// Memory was wanting.
    Memory,
    /// A data file is refused.
    Values,
}

impl Status {
    /// The number with which the process ends.
    pub fn code(self) -> u8
        ensures { result ≡ code self }
    {
        match self {
            Status::Done => 0,
            Status::Found => 1,
            Status::Usage => 2,
            Status::Source => 3,
            Status::Unread => 4,
            Status::Unwritten => 5,
            Status::Memory => 6,
            Status::Values => 7,
        }
    }
}
