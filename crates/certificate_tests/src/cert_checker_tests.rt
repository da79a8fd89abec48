// Answers of the check of a certificate in a file, for the cases of `data/cert_checker`.

ghost use Rattle.std.specs.Prelude.{◌<◌};

use crate::cert_format_tests::with_line_feeds;
use carp_base::{Fail as Refusal, Instance};
use carp_outside::MemShelf;
use cert_checker::{Answer, Checked, StreamFault, check_stream};
use cert_format::CertFault;
use samples::{instance_of, numbers, part};
use std::alloc::{AllocError, Global};
use std::test::Fail;

pub fn answer(alloc: Global, over: &str, call: &str, input: &str) -> Result<String, Fail> {
    let inst = instance_of(alloc, over)?;
    match call {
        "text" => check(alloc, &inst, "7 1000", input),
        "file" => check(alloc, &inst, part(input, 0), part(input, 1)),
        _ => Err("no such call")?,
    }
}

// The text of a case.
fn text_of(alloc: Global, text: &str) -> Result<String, AllocError> {
    let priced = "$tours 0~shores 1~shore 1 3~sets 1~prices 1 1 5~";
    let weighted =
        "carp-certificate 4~instance 3 2 2 2 4~cost 5~bound 5~tours 0~shores 0~sets 1~prices 1 1 5~weights 0~";
    let text = text.replace(alloc, "#", priced)?;
    let text = text.replace(alloc, "%", weighted)?;
    let text = text.replace(alloc, "$", "carp-certificate 1~cost 5~bound 5~")?;
    let text = text.replace(alloc, "^", "\r")?;
    with_line_feeds(alloc, &text)
}

// A shelf that holds the text.
fn shelf_of(alloc: Global, piece: usize, failing: &[u64], text: &str) -> Result<MemShelf, Fail>
    requires { 0 < piece }
{
    let failing = Vec::from_slice(alloc, failing)?;
    let text = text_of(alloc, text)?;
    let mut shelf = MemShelf::new(alloc, piece, failing, Vec::new(alloc));
    shelf.place("CERT", text.as_bytes())?;
    Ok(shelf)
}

// The check of a file that gives so many bytes at a look, up to a limit, where looks of these numbers fail.
fn check(alloc: Global, inst: &Instance, words: &str, text: &str) -> Result<String, Fail> {
    let numbers = numbers(alloc, words)?;
    let [piece, limit, failing @ ..] = numbers.as_slice() else {
        return Err("a piece and a limit")?;
    };
    let (piece, limit) = (*piece as usize, *limit);
    if piece == 0 || limit > 1_000_000 {
        Err("some bytes at a look, up to a limit")?
    }
    let mut shelf = shelf_of(alloc, piece, failing, text)?;
    match check_stream(alloc, inst, &mut shelf, "CERT", limit) {
        Ok(checked) => checked_text(alloc, &checked),
        Err(Refusal::Refused(fault)) => fault_text(alloc, fault),
        Err(Refusal::Memory) => Err(AllocError)?,
    }
}

fn checked_text(alloc: Global, checked: &Checked) -> Result<String, Fail> {
    let answer = match checked.answer {
        Answer::Accepted => "accepted",
        Answer::Rejected(_) => "rejected",
    };
    let (cost, bound, tours) = (checked.cost, checked.bound, checked.plan.len());
    Ok(format!(in alloc; "{answer} {cost} {bound} {tours}")?)
}

fn fault_text(alloc: Global, fault: StreamFault) -> Result<String, Fail> {
    let (what, line) = match fault {
        StreamFault::Read => return Ok(String::from_str(alloc, "not read")?),
        StreamFault::TooLong => return Ok(String::from_str(alloc, "too long")?),
        StreamFault::Bad(CertFault::Syntax(line)) => ("cannot be read", line),
        StreamFault::Bad(CertFault::Limit(line)) => ("passes a limit", line),
        StreamFault::Bad(CertFault::Truncated(line)) => ("is not complete", line),
    };
    Ok(format!(in alloc; "line {line} {what}")?)
}
