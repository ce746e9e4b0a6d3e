ghost use Rattle.std.specs.Prelude.{◌≡◌};
ghost use Rattle.cyc_top.specs.Statuses.{number_of_status};

/// What a call of the program comes to. The numbers and their order are the project's own.
#[derive(Clone, Copy, Debug, PartialEq, Eq)]
pub enum Status {
    /// The command is done.
    Done,
    /// The words are no command.
    Usage,
    /// A file that is to be read isn't there: its place among the file words, from 0.
    Missing(u32),
    /// A file that is there can't be read: its place among the file words, from 0.
    ReadFault(u32),
    /// An output can't be written.
    WriteFault,
    /// There is no memory for the work.
    Memory,
    /// The file is none that this version has code for.
    NotBuilt,
}

impl Status {
    /// The number that the process ends with.
    pub fn number(self) -> u8
        ensures { result ≡ number_of_status self }
    {
        match self {
            Status::Done => 0,
            Status::Usage => 2,
            Status::Missing(_) => 3,
            Status::ReadFault(_) => 4,
            Status::WriteFault => 5,
            Status::Memory => 10,
            Status::NotBuilt => 11,
        }
    }
}
