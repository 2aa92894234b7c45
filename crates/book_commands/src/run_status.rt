//! The status with which a run ends.
ghost use Rattle.std.specs.Prelude.{◌≡◌};
ghost use Rattle.book_commands.specs.Numbers.{status_number};

/// The status with which a run ends.
#[derive(Clone, Copy)]
pub enum RunStatus {
    /// The order is accepted, the book can be released, the certificate has no fault, the sample is judged, or the desk served
    /// its link, or its door, to the end.
    Done,
    /// The order is refused, or unfit, or a finding keeps the book from its release, or supplementing rules break sets or swap.
    Refused,
    /// The words are of no form.
    Usage,
    /// The book or the order has a fault, or the book exceeds a limit of checking, or a message of the desk's link was refused or
    /// cut.
    Faulty,
    /// The source or the files failed.
    ReadFault,
    /// The sink failed.
    WriteFault,
    /// The desk was not started: its keeper failed, or a row that is kept is not right.
    NotStarted,
    /// No finding keeps the book from its release, or is of its supplementing rules, but a question was left.
    Undecided,
    /// The certificate has a fault.
    BadCertificate,
    /// Memory was wanting.
    WantOfMemory,
    /// The door or one of its ports failed.
    DoorFault,
}

impl RunStatus {
    /// The number with which the program exits.
    pub fn number(self) -> u8
        ensures { result ≡ status_number self }
    {
        match self {
            RunStatus::Done => 0,
            RunStatus::Refused => 1,
            RunStatus::Usage => 2,
            RunStatus::Faulty => 3,
            RunStatus::ReadFault => 4,
            RunStatus::WriteFault => 5,
            RunStatus::NotStarted => 6,
            RunStatus::Undecided => 7,
            RunStatus::BadCertificate => 8,
            RunStatus::WantOfMemory => 9,
            RunStatus::DoorFault => 10,
        }
    }
}
