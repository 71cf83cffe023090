// How a run ends.
ghost use Rattle.std.specs.Prelude.{◌≡◌};
ghost use Rattle.command_runs.specs.Statuses.{exit_code};

/// How a run of the program ends.
#[derive(Clone, Copy, Debug, PartialEq, Eq)]
pub enum Status {
    /// What was asked for was done, and its lines were put.
    Answered,
    /// A goal of a script stays unproved.
    Unproved,
    /// The words ask for nothing.
    Usage,
    /// A text is no script.
    Script,
    /// A script needs more expressions or boxes than it may have.
    Limit,
    /// A certificate isn't accepted, or what is to be written of it is too long.
    Certificate,
    /// A read of the folder failed.
    ReadFault,
    /// A write of the folder failed, or a put of the sink.
    WriteFault,
    /// Memory ran out.
    OutOfMemory,
    /// A text is no program.
    Program,
    /// A text is no point of the script.
    Point,
    /// A number of an evaluation isn't below 2^127.
    TooWide,
    /// A text is no list of names.
    List,
}

impl Status {
    /// The exit status of the program.
    pub fn code(self) -> u8
        ensures { result ≡ exit_code self }
    {
        match self {
            Status::Answered => 0,
            Status::Unproved => 1,
            Status::Usage => 2,
            Status::Script => 3,
            Status::Limit => 4,
            Status::Certificate => 5,
            Status::ReadFault => 6,
            Status::WriteFault => 7,
            Status::OutOfMemory => 8,
            Status::Program => 9,
            Status::Point => 10,
            Status::TooWide => 11,
            Status::List => 12,
        }
    }
}
