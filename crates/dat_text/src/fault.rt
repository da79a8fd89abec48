// Why a text is no instance text.

use crate::Key;
use carp_base::InstanceFault;
use thiserror::Error;

/// Why bytes are no text of a valid instance. Lines are numbered from 1.
///
/// The first bad line comes first. If no line is bad, a missing key comes first, in the order of `VERTICES`,
/// `ARISTAS_REQ`, `CAPACIDAD` and `DEPOSITO`. Next comes a count that differs from the length of its list, that of the
/// required edges first. Last comes the fault of the instance that the text describes.
#[derive(Clone, Copy, Debug, PartialEq, Eq, Error)]
pub enum DatFault {
    /// The line has a key, or its first byte that is no blank is `(`, but it does not have the shape of such a line, or
    /// no list is open there.
    #[error("line {0} cannot be read")]
    Syntax(u64),
    /// The key stands nowhere.
    #[error("key {0} is missing")]
    MissingKey(Key),
    /// The key stands on an earlier line too.
    #[error("key {0} stands twice")]
    DoubleKey(Key),
    /// The number that stands at the key is not the number of edges of the list.
    #[error("{key} states {stated} and the list has {found}")]
    CountDiffers {
        /// The key of the count, `RequiredCount` or `OtherCount`.
        key: Key,
        /// The number that stands at the key.
        stated: u64,
        /// The number of edge lines of the list.
        found: u64,
    },
    /// The line has a number of more than 18 digits. Leading zeros are digits.
    #[error("line {0} has a number of more than 18 digits")]
    NumberTooLong(u64),
    /// The text describes no valid instance.
    #[error("{0}")]
    Refused(InstanceFault),
}

/// What is wrong with a line by itself.
#[derive(Clone, Copy, Debug, PartialEq, Eq)]
pub(crate) enum LineFault {
    /// It has not the shape of its kind.
    Syntax,
    /// It has its shape, and a number of more than 18 digits.
    TooLong,
}
