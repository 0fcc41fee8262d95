// How a run of the program ends.
ghost use Rattle.std.specs.Prelude.{◌≡◌};
ghost use Rattle.command.specs.Status.{exit_status};

/// How a run of the program ends.
#[derive(Clone, Copy, Debug, PartialEq, Eq)]
pub enum Status {
    /// The text of the answer was written whole.
    Done,
    /// The same, and some answer in it is left open.
    DoneOpen,
    /// The words are no command.
    Usage,
    SourceRefused,
    QueryRefused,
    InputRefused,
    /// A counted quantity passes its limit.
    Limit,
    /// A file couldn't be read.
    ReadFault,
    /// The sink that was being written failed.
    WriteFault,
    /// An allocation was refused.
    Memory,
    /// A certificate doesn't refute the goal.
    CertificateRejected,
}

impl Status {
    /// The program's exit status, from 0 to 10.
    pub fn exit_status(self) -> u8
        ensures { result ≡ exit_status self }
    {
        match self {
            Status::Done => 0,
            Status::DoneOpen => 1,
            Status::Usage => 2,
            Status::SourceRefused => 3,
            Status::QueryRefused => 4,
            Status::InputRefused => 5,
            Status::Limit => 6,
            Status::ReadFault => 7,
            Status::WriteFault => 8,
            Status::Memory => 9,
            Status::CertificateRejected => 10,
        }
    }
}
