// Answers of the text of a certificate, for the cases of `data/cert_format`.

use cert_format::{read_cert, write_cert};
use cert_lines::read_is_spelled;
use std::alloc::{AllocError, Global};
use std::test::Fail;

pub fn answer(alloc: Global, _over: &str, call: &str, input: &str) -> Result<String, Fail> {
    if call != "written" {
        Err("no such call")?
    }
    let text = with_line_feeds(alloc, input)?;
    let answer = if is_written_back(alloc, &text)? {
        "the same"
    } else {
        "another text"
    };
    Ok(String::from_str(alloc, answer)?)
}

/// A text with a line feed for each `~`.
pub(crate) fn with_line_feeds(alloc: Global, text: &str) -> Result<String, AllocError> {
    text.replace(alloc, "~", "\n")
}

// Whether the certificate that is read of a text is written as this text.
fn is_written_back(alloc: Global, text: &str) -> Result<bool, Fail> {
    read_is_spelled();
    let cert = read_cert(alloc, text.as_bytes())?;
    let back = write_cert(alloc, &cert)?;
    Ok(back.as_slice() == text.as_bytes())
}
