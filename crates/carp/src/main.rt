//! The program: the files of the system, its standard output, the words of the command line, four helpers and three
//! advisers, given to the top call ([`carp_cli::run_with`]).
//!
//! In the field: four heuristics, path scanning, augment-merge, route first and cluster second, and ruin and recreate
//! with local search; and three bounds, a cutting plane method, a subgradient method and column generation. `helping` makes
//! them.
#![tactic(auto)]

mod helping;

use carp_base::Memory;
use carp_cli::{DirShelf, Status, StdSink, TerminalWatch};
use std::io::{ErrorKind, IsTerminal, Lock};
use std::process::ExitCode;
use std::rt::Env;
use std::{env, io};

fn main(rt: HostRuntime) -> ExitCode {
    let alloc = rt.alloc();
    let Ok(words) = words_of(&rt) else {
        return ExitCode::from(Status::Memory.code());
    };
    let mut shelf = DirShelf::new(&rt, alloc);
    let mut out = StdSink::new(io::writer(&rt));
    let error = rt.stderr().lock();
    let is_terminal = error.is_terminal();
    let mut watch = TerminalWatch::new(error, is_terminal);
    let status = helping::run_with_helpers(alloc, &words, &mut shelf, &mut out, &mut watch);
    ExitCode::from(status.code())
}

// The words after the program's name. If one of them is no text, there are none, since no command has such a word.
fn words_of(rt: &(impl Env + AllocGlobal)) -> Result<Vec<String>, Memory> {
    let mut words = Vec::new(rt.alloc());
    match env::args(rt) {
        Ok(all) => {
            for word in all.skip(1) {
                words.push(word)?;
            }
            Ok(words)
        }
        Err(error) if error.kind() == ErrorKind::OutOfMemory => Err(Memory),
        Err(_) => Ok(words),
    }
}
