// Numbers in a growing text.
ghost use Rattle.std.specs.Prelude.{◌≡◌, ◌++◌, OnOk};
ghost use Rattle.plan_print.specs.NumberLines.{number_line};

use carp_base::Memory;
use itoa::{Buffer, Integer};

/// Adds a number in plain decimals.
pub fn push_number<I: Integer>(text: &mut Vec<u8>, number: I) -> Result<(), Memory>
    ensures { OnOk result (text.new.items ≡ text.old.items ++ I.text number) }
{
    let mut buffer = Buffer::new();
    text.extend_from_slice(buffer.format(number).as_bytes())?;
    Ok(())
}

/// Adds words, and then a number in plain decimals.
pub fn push_words<I: Integer>(text: &mut Vec<u8>, words: &[u8], number: I) -> Result<(), Memory>
    ensures { OnOk result (text.new.items ≡ text.old.items ++ words.now ++ I.text number) }
{
    text.extend_from_slice(words)?;
    push_number(text, number)
}

/// Adds words, a number in plain decimals, and the end of the line.
#[tactic(auto, unfolding(crate::specs::NumberLines::number_line))]
pub fn push_line(text: &mut Vec<u8>, words: &[u8], number: u128) -> Result<(), Memory>
    ensures { OnOk result (text.new.items ≡ text.old.items ++ number_line words.now number) }
{
    push_words(text, words, number)?;
    text.push(b'\n')?;
    Ok(())
}
