//! The outside as the product sees it: a store of named files, and an output.
//!
//! A [`Shelf`] and a [`Sink`] are given by the caller. [`read_whole`] and [`put_all`] move whole texts through them.
//! [`MemShelf`] and [`MemSink`] stand in memory, tell what they hold, and fail at the calls that they are told to. A
//! keep that fails can be told to leave a front of the new contents.
//!
//! - `shelf`, `sink`: the interfaces.
//! - `pieces`, `reading`: a file in pieces, a whole file in, and all bytes out.
//! - `mem_shelf`, `mem_sink`: both in memory, over `mem_files`, `mem_file` and `calls` (numbered calls, some of which
//!   fail).
#![tactic(auto)]

mod calls;
mod examples;
mod mem_file;
mod mem_files;
mod mem_shelf;
mod mem_sink;
mod pieces;
mod reading;
mod shelf;
mod sink;

pub use mem_shelf::MemShelf;
pub use mem_sink::MemSink;
pub use pieces::Pieces;
pub use reading::{ReadFault, put_all, read_whole};
pub use shelf::{Shelf, ShelfFault};
pub use sink::{Sink, SinkFault};
