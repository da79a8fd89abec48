//! The `.dat` text of an instance, read and written. It is the layout of the data sets for arc routing.
//!
//! [`read_dat`] reads any text of the grammar, or names the first fault of a text with its line: a [`DatFault`].
//! [`write_dat`] gives one text of an instance, which [`read_dat`] reads as this instance. [`readings_are_unique`] and
//! [`written_is_read`] say what holds of all texts.
//!
//! `specs/Lines.antt` and `specs/Text.antt` define what a text says, by whole lines. `specs/DatText.antt` defines the
//! text that is written.
//!
//! - `key`, `kind`, `parts`, `number`: the keys, the kinds of lines, and the parts of a line.
//! - `key_line`, `edge_line`: what a line of each kind says.
//! - `draft`, `reading`: what has been read so far, and the whole text.
//! - `line_texts`, `write`: the lines that are written, and the whole text.
//! - `fault`, `laws`: why a text is no instance text, and what is proved of all texts.
#![tactic(auto)]

mod draft;
mod edge_line;
mod fault;
mod key;
mod key_line;
mod kind;
mod laws;
mod line_texts;
mod number;
mod parts;
mod reading;
mod write;

pub use fault::DatFault;
pub use key::Key;
pub use laws::{readings_are_unique, written_is_read, written_is_short};
pub use reading::read_dat;
pub use write::write_dat;
