//! The words of a command line.
//!
//! [`read_words`] gives the [`Command`] that they name, if they are in plain form: a verb, its names, and then its
//! options, each at most once and in any order. The table `forms` of `specs/Words.antt` says what each verb takes.
//! `specs/Commands.antt` says what each command reads and keeps.
//!
//! - `command`, `words`: the commands, and the words that name them.
//! - `table`, `plain`: the table of verbs, and whether words are in plain form.
//! - `grammar`: plain words read by `clap`, whose reading is proved to be that of the table.
//! - `laws`: what is proved of all words.
#![tactic(auto)]

mod command;
mod examples;
mod grammar;
mod laws;
mod plain;
mod table;
mod words;

pub use command::Command;
pub use laws::budgets_are_in_range;
pub use words::read_words;
