// Commands over files in memory, whose looks, keeps and puts fail at given numbers.
use carp_cli::run;
use carp_outside::{MemShelf, MemSink};
use plan_model::Proposer;
use samples::{number, numbers, part};
use std::alloc::Global;
use std::test::Fail;

// Room for any report and any certificate of these cases.
const ROOM: usize = 65_536;

/// The answer to a case.
pub(crate) fn answer(alloc: Global, over: &str, call: &str, input: &str) -> Result<String, Fail> {
    match call {
        "run" => answer_of_run(alloc, over, input),
        _ => Err("no such call")?,
    }
}

// What a command answers, and what a name holds then.
fn answer_of_run(alloc: Global, over: &str, input: &str) -> Result<String, Fail> {
    let piece = number(part(over, 0))? as usize;
    if piece == 0 {
        Err("a look gives something")?
    }
    let looks = numbers(alloc, part(input, 1))?;
    let keeps = numbers(alloc, part(input, 2))?;
    let mut shelf = MemShelf::new(alloc, piece, looks, keeps);
    fill(alloc, &mut shelf, over)?;
    tear(&mut shelf, part(input, 4))?;
    let written = run_words(alloc, &mut shelf, part(input, 0), part(input, 3))?;
    with_held(alloc, written, &shelf, part(input, 5))
}

// Sets up the files of the ground, and room for what is kept.
fn fill(alloc: Global, shelf: &mut MemShelf, over: &str) -> Result<(), Fail> {
    place(alloc, shelf, "file", part(over, 1))?;
    place(alloc, shelf, "cert", part(over, 2))?;
    place(alloc, shelf, "edits", part(over, 3))?;
    shelf.ready("cert", ROOM)?;
    shelf.ready("new", ROOM)?;
    shelf.ready("other", ROOM)?;
    Ok(())
}

// Places a file, if the ground has a text of it.
fn place(alloc: Global, shelf: &mut MemShelf, name: &str, text: &str) -> Result<(), Fail> {
    if !text.is_empty() {
        let lines = text.replace(alloc, "~", "\n")?;
        shelf.place(name, lines.as_bytes())?;
    }
    Ok(())
}

fn tear(shelf: &mut MemShelf, bytes: &str) -> Result<(), Fail> {
    if !bytes.is_empty() {
        shelf.tear(number(bytes)?);
    }
    Ok(())
}

// The code of the answer to these words, and what is written, in puts of 16 bytes.
fn run_words(alloc: Global, shelf: &mut MemShelf, words: &str, puts: &str) -> Result<String, Fail> {
    let words = words_in(alloc, words)?;
    let failing = numbers(alloc, puts)?;
    let mut helpers: Vec<Box<dyn Proposer>> = Vec::new(alloc);
    let mut out = MemSink::new(alloc, ROOM, 16, failing)?;
    let status = run(alloc, &words, shelf, &mut out, &mut helpers);
    told(alloc, status.code(), out.written())
}

// The words of a text.
fn words_in(alloc: Global, text: &str) -> Result<Vec<String>, Fail> {
    let mut words = Vec::new(alloc);
    for word in text.split_ascii_whitespace() {
        words.push(String::from_str(alloc, word)?)?;
    }
    Ok(words)
}

fn told(alloc: Global, code: u8, written: &[u8]) -> Result<String, Fail> {
    Ok(format!(in alloc; "{code} {}", text_of(written))?)
}

// What stands before, and behind it what a name holds, if one is asked for.
fn with_held(alloc: Global, written: String, shelf: &MemShelf, name: &str) -> Result<String, Fail> {
    let mut told = written;
    if !name.is_empty() {
        told.push_str(" / ")?;
        told.push_str(text_of(shelf.held(name).unwrap_or(b"")))?;
    }
    Ok(told.replace(alloc, "\n", "~")?)
}

// Bytes as text, or `nothing`.
fn text_of(bytes: &[u8]) -> &str {
    if bytes.is_empty() {
        "nothing"
    } else {
        str::from_utf8(bytes).unwrap_or("no text")
    }
}
