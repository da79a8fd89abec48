//! The files that a command reads, and what it has to do once they are read.
//!
//! [`read_instance`], [`check_file`], [`read_good`] and [`read_round`] read a file from a [`carp_outside::Shelf`] and
//! make something of its bytes. If the file cannot be read, is too long, or its bytes are bad, they answer the
//! [`Status`] by which the command ends. [`read_edited`] reads an instance, a certificate of it and edits, all three
//! before it looks at what they hold. What becomes of a file is said as one record (`IsFileRead` of
//! `specs/Reads.antt`), so that a command that reads two files composes two of them.
//!
//! [`gather`] reads the files of a command, in their order, and makes of them a [`Job`]: all that the command needs to
//! be done. Or it answers the status by which the first bad file ends it.
//!
//! - `reading`, `rounds`, `edit_reading`: reads one file, an instance for a round, and the three files of an edit.
//! - `texts`: what three texts say.
//! - `job`, `edited`, `gathering`: what a command has to do, what the files of an edit hold, and the files of a
//!   command.
//! - `status`: how a run ends.
#![tactic(auto)]

mod edit_reading;
mod edited;
mod gathering;
mod job;
mod reading;
mod rounds;
mod status;
mod texts;

pub use edit_reading::{EDITS_LIMIT, read_edited};
pub use edited::Edited;
pub use gathering::gather;
pub use job::Job;
pub use reading::{
    CERTIFICATE_LIMIT, INSTANCE_LIMIT, Stated, check_file, read_good, read_instance,
};
pub use rounds::{Laid, read_round};
pub use status::Status;
