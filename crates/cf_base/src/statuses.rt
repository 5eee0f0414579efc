//! How a run ends.

ghost use Rattle.std.specs.Prelude.{◌≡◌};
ghost use Rattle.cf_base.specs.Statuses.{exit_number};

/// How a run ends.
#[derive(Clone, Copy, Debug, PartialEq, Eq)]
pub enum Status {
    /// Each event was answered, and all was written.
    Done,
    /// The words are no command.
    Usage,
    /// A line of the script is bad, which is written.
    BadScript,
    /// The source failed.
    SourceFault,
    /// The sink failed.
    SinkFault,
    /// The device has no fit size.
    BadDevice,
    /// There was no memory.
    OutOfMemory,
    /// The source, or the report, has too many bytes.
    TooLong,
    /// The device failed before the first event.
    DeviceFault,
    /// The bytes that were to be read as a device are none.
    BadImage,
    /// A report gives an answer that is not lawful.
    Unlawful,
    /// A report is lawful as far as it can be judged.
    Undecided,
    /// The bytes of a device are damaged.
    Damaged,
}

impl Status {
    /// The number with which the program ends.
    pub fn number(self) -> u8
        ensures { result ≡ exit_number self }
    {
        match self {
            Status::Done => 0,
            Status::Usage => 2,
            Status::BadScript => 3,
            Status::SourceFault => 4,
            Status::SinkFault => 5,
            Status::BadDevice => 6,
            Status::OutOfMemory => 7,
            Status::TooLong => 8,
            Status::DeviceFault => 9,
            Status::BadImage => 10,
            Status::Unlawful => 11,
            Status::Undecided => 12,
            Status::Damaged => 13,
        }
    }
}
