//! Edits of an instance: their text, and the instance that they make.
//!
//! In the field: changes of the data of an instance, for reoptimization.
//!
//! [`read_edits`] reads edits from a text, or names its first bad line. [`edited`] makes the instance of edits, or
//! names its first fault. [`edits_are_unique`] says that a text is of one list of edits, or has one first bad line.
//!
//! - `edit`: edits, and why they are refused.
//! - `line`, `read`: one line, and the whole text.
//! - `change`: the instance that edits make.
//! - `laws`: what is proved of all texts.
#![tactic(auto)]

mod change;
mod edit;
mod laws;
mod line;
mod read;

pub use change::edited;
pub use edit::{Edit, EditFault};
pub use laws::edits_are_unique;
pub use read::read_edits;

mod examples;
