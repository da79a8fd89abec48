//! The top call of the program, and what it stands on at the edge of the system.
//!
//! [`run_with`] does all that the program does: it reads the words of a command, reads files from a
//! [`carp_outside::Shelf`], keeps files there, writes texts to a [`carp_outside::Sink`] and answers a [`Status`].
//! [`run`] is the same call with no advisers, and nobody who is told how far it is. [`DirShelf`] and [`StdSink`] make the files of the
//! system and a writer, such as the standard output, into these.
//!
//! `command_line` reads a command, `command_inputs` reads its files and checks their certificates, and `command_outputs`
//! makes what it asks for.
//!
//! [`kept_is_accepted`] says how two runs fit: what `solve` keeps, `check` accepts.
//!
//! - `running`: the top call.
//! - `refusals`: the texts of answers that have no report.
//! - `delivering`: what was made is kept and written. All that is kept or written goes through one function.
//! - `dir_shelf`, `std_sink`: the files of the system, and its standard output. `terminal`: its standard error, on which
//!   one line tells how far a run is ([`TerminalWatch`]).
//! - `laws`: what is proved of two runs.
#![tactic(auto)]

mod delivering;
mod dir_shelf;
mod examples;
mod laws;
mod refusals;
mod running;
mod std_sink;
mod terminal;

pub use command_inputs::Status;
pub use dir_shelf::DirShelf;
pub use laws::kept_is_accepted;
pub use running::{run, run_with};
pub use std_sink::StdSink;
pub use terminal::TerminalWatch;
