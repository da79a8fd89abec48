// Why bytes are no text of a certificate.

/// The first fault of bytes that are no text of a certificate. Lines are counted from 1.
#[derive(Clone, Copy, Debug, PartialEq, Eq)]
pub enum CertFault {
    /// This line does not have the shape of a line that may stand there, or what it says does not agree.
    Syntax(u64),
    /// This line has the right shape, and one of its numbers is out of range.
    Limit(u64),
    /// No line is bad, and the text ends before this line is complete.
    Truncated(u64),
}
