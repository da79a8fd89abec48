// The public call.
ghost use Rattle.std.specs.Prelude.{◌≡◌, None, Some, IfOk, MatchOption};
ghost use Rattle.command_line.specs.Words.{command_of, texts_of};
ghost use Rattle.command_line.specs.Forms.{command_in};

use crate::command::Command;
use crate::grammar::read_plain;
use crate::plain::are_plain;
use carp_base::Memory;
use std::alloc::Global;

/// The command that the words name, or none if they are not in plain form. It borrows its names from the words.
///
/// The words are those after the program's name. In plain form they are a verb of the table, then as many names as it
/// takes, and then the options that it takes. No name is empty, begins with `-`, or is equal to another one byte by
/// byte. The options stand in any order and each at most once: a word and a number of 1 to 18 decimal digits, which for
/// `--turns` is 1 to 1,048,576. The only error is want of memory. It takes time in proportion to the length of the
/// words times their number.
pub fn read_words(alloc: Global, words: &[String]) -> Result<Option<Command<'_>>, Memory>
    ensures { IfOk result (λ read. MatchOption read (command_of (texts_of words.now) ≡ None) (λ c. command_of (texts_of words.now) ≡ Some (command_in c))) }
{
    if !are_plain(words) {
        return Ok(None);
    }
    match read_plain(alloc, words) {
        Ok(command) => Ok(Some(command)),
        Err(Memory) => Err(Memory),
    }
}
