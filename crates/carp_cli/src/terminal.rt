// A terminal that is told how far a run is.
use itoa::Buffer;
use progress::{Standing, Watch};
use std::io::Write;

// A line of words and five numbers has fewer bytes.
const LINE: usize = 200;

// Goes back to the start of the line, and erases it.
const ERASE: &[u8] = b"\r\x1b[K";

/// A writer to a terminal, such as the standard error, on which one line tells how far a run is. The line is written
/// over again and again, and erased at the end. If the writer is none to a terminal, nothing is written. What cannot be
/// written is passed over.
#[derive(Drop)]
pub struct TerminalWatch<W> {
    inner: W,
    listens: bool,
    written: bool,
}

impl<W: Write> TerminalWatch<W> {
    /// A watch that writes to `inner`, if that is a terminal.
    pub fn new(inner: W, is_terminal: bool) -> TerminalWatch<W> {
        TerminalWatch {
            inner,
            listens: is_terminal,
            written: false,
        }
    }

    // Writes a line over the one that stands.
    fn show(&mut self, line: &[u8]) {
        self.written = self.inner.write_all(ERASE).is_ok() && self.inner.write_all(line).is_ok();
    }
}

// The words for what a search does next: before the first turn it raises the bound of the root.
fn phase_of(standing: &Standing) -> &'static [u8] {
    if standing.turn == 0 {
        b"raising the bound, turn "
    } else {
        b"turn "
    }
}

// A line, in an array, so that it takes no memory. What does not fit is left out.
#[derive(Drop)]
struct Line {
    bytes: [u8; LINE],
    len: usize,
}

impl Line {
    fn push(&mut self, part: &[u8]) {
        let end = self.len.saturating_add(part.len());
        if self.len <= end && end <= LINE {
            self.bytes[self.len..end].copy_from_slice(part);
            self.len = end;
        }
    }

    // Words, and a number in plain decimals.
    fn push_words(&mut self, words: &[u8], number: u64) {
        self.push(words);
        let mut digits = Buffer::new();
        self.push(digits.format(number).as_bytes());
    }
}

// The line of a standing.
fn line_of(standing: &Standing) -> Line {
    let mut line = Line {
        bytes: [0; LINE],
        len: 0,
    };
    line.push_words(phase_of(standing), standing.turn);
    line.push_words(b" of ", standing.turns);
    line.push_words(b"  cost ", standing.cost);
    line.push_words(b"  bound ", standing.bound);
    line.push_words(b"  gap ", standing.cost.saturating_sub(standing.bound));
    line
}

impl<W: Write> Watch for TerminalWatch<W> {
    fn listens(&self) -> bool {
        self.listens
    }

    fn asks(&mut self) {
        if self.listens {
            self.show(b"asking helpers for tours");
        }
    }

    fn turns(&mut self, standing: Standing) {
        if self.listens {
            let line = line_of(&standing);
            self.show(&line.bytes[..line.len.min(LINE)]);
        }
    }

    fn ends(&mut self) {
        if self.written {
            self.show(b"");
        }
        self.written = false;
        self.listens = false;
    }
}
