// The kind of a line.
ghost use Rattle.std.specs.Prelude.{◌≡◌, ◌≤◌, length, IfSome, IsNone};
ghost use Rattle.std.specs.List.{prefix_len};
ghost use Rattle.dat_text.specs.Lines.{is_key_byte, SameLetters, key_name};
ghost use Rattle.dat_text.specs.Reading.{run_at, after_run};
ghost use Rattle.dat_text.specs.Kinds.{IsKind, NamesNone};

use crate::Key;
use crate::parts::{after_byte, skip_blanks};

/// What kind of line a line is.
#[derive(Clone, Copy)]
pub(crate) enum Kind<'a> {
    /// A blank line, or one that is skipped.
    Skipped,
    /// A line whose first byte that is no blank is `(`.
    Edge,
    /// A line with this key, and what follows the key.
    Key(Key, &'a [u8]),
}

const KEYS: [Key; 7] = [
    Key::Vertices,
    Key::RequiredCount,
    Key::OtherCount,
    Key::Capacity,
    Key::Depot,
    Key::RequiredList,
    Key::OtherList,
];

fn is_key_byte(byte: u8) -> bool
    ensures { result ≡ is_key_byte byte }
{
    byte.is_ascii_alphanumeric() || byte == b'_'
}

fn key_byte_count(text: &[u8]) -> usize
    ensures count { result ≡ prefix_len is_key_byte text.now }
    ensures within { result ≤ length text.now }
{
    text.iter().take_while(|byte| is_key_byte(**byte)).count()
}

/// The key of this name, in any case.
fn key_named(name: &[u8]) -> Option<Key>
    ensures named { IfSome result (λ key. SameLetters name.now (key_name key)) }
    ensures none { IsNone result → NamesNone name.now }
{
    for key in &KEYS {
        if name.eq_ignore_ascii_case(key.name().as_bytes()) {
            return Some(*key);
        }
    }
    None
}

/// The key at the front of a text, and what follows it.
fn key_at(text: &[u8]) -> Option<(Key, &[u8])>
    ensures found { IfSome result (λ p. SameLetters (run_at is_key_byte text.now) (key_name p.0) × (p.1.now ≡ after_run is_key_byte text.now)) }
    ensures none { IsNone result → NamesNone (run_at is_key_byte text.now) }
{
    let (name, rest) = text.split_at(key_byte_count(text));
    match key_named(name) {
        Some(key) => Some((key, rest)),
        None => None,
    }
}

/// The kind of a line.
pub(crate) fn kind_of(line: &[u8]) -> Kind<'_>
    ensures { IsKind line.now result }
{
    match after_byte(line, b'(') {
        Some(_) => Kind::Edge,
        None => match key_at(skip_blanks(line)) {
            Some((key, rest)) => Kind::Key(key, rest),
            None => Kind::Skipped,
        },
    }
}
