//! Why there is no further line.

/// Why no line is given.
#[derive(Clone, Copy, Debug, PartialEq, Eq)]
pub enum LineFault {
    /// The source or the shelf failed. Nothing is lost: a further call goes on.
    Failed,
    /// The line with this number is longer than the line limit. The next call gives the next line.
    TooLong(u64),
    /// The text goes on past the file limit, and all lines that end within it were given or refused.
    FileTooLong,
}
