// What follows the key of a key line.
ghost use Rattle.std.specs.Prelude.{◌≡◌, MatchResult};
ghost use Rattle.std.specs.Option.{option_map};
ghost use Rattle.dat_text.specs.Reading.{is_end, after_colon, stated_at};
ghost use Rattle.dat_text.specs.Kinds.{ReadsKey, FailsKey};

use crate::Key;
use crate::fault::LineFault;
use crate::number::value_of;
use crate::parts::{after_byte, is_blank, number_at};

fn is_end(text: &[u8]) -> bool
    ensures { result ≡ is_end text.now }
{
    match text {
        [] => true,
        [first, ..] => is_blank(*first),
    }
}

fn after_colon(text: &[u8]) -> &[u8]
    ensures { result.now ≡ after_colon text.now }
{
    match after_byte(text, b':') {
        Some(rest) => rest,
        None => text,
    }
}

/// The digits that a key states.
#[tactic(auto, unfolding(crate::specs::Reading::stated_at))]
fn stated_at(text: &[u8]) -> Option<&[u8]>
    ensures { option_map (λ d. d.now) result ≡ stated_at text.now }
{
    let (digits, rest) = number_at(after_colon(text))?;
    if is_end(rest) { Some(digits) } else { None }
}

/// The number that a key states, or none if the key opens a list.
pub(crate) fn read_key(key: Key, text: &[u8]) -> Result<Option<u64>, LineFault>
    ensures { MatchResult result (ReadsKey key text.now) (FailsKey key text.now) }
{
    if !key.has_number() {
        return Ok(None);
    }
    match stated_at(text) {
        None => Err(LineFault::Syntax),
        Some(digits) => match value_of(digits) {
            None => Err(LineFault::TooLong),
            Some(value) => Ok(Some(value)),
        },
    }
}
