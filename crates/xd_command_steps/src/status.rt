//! The exit status.

/// The exit status of the command.
#[derive(Clone, Copy, Debug, PartialEq, Eq)]
pub struct Status {
    pub code: u8,
}

impl Status {
    /// Yes, or accepted.
    pub const SUCCESS: Status = Status { code: 0 };
    /// The program has faults.
    pub const FAULTS: Status = Status { code: 1 };
    /// The words have no form of a command.
    pub const USAGE: Status = Status { code: 2 };
    /// A text can't be read.
    pub const UNREAD: Status = Status { code: 3 };
    /// The output can't be written.
    pub const UNWRITTEN: Status = Status { code: 4 };
    /// There is not enough memory.
    pub const NO_MEMORY: Status = Status { code: 5 };
    /// The answer is no.
    pub const NO: Status = Status { code: 6 };
    /// The document is malformed.
    pub const MALFORMED: Status = Status { code: 7 };
    /// The document is outside the input type.
    pub const OUTSIDE: Status = Status { code: 8 };
    /// The program needs more calls.
    pub const SPENT: Status = Status { code: 9 };
    /// A text is longer than its limit.
    pub const TOO_LONG: Status = Status { code: 10 };
}
