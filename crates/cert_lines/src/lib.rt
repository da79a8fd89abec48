//! What the text of a certificate says, line by line, and how each line is spelled.
//!
//! In the field: the file format of proof logging.
//!
//! A certificate is written for people who do not trust its maker. So it has one spelling, and any
//! other text has a first fault. `specs/Lines.antt` defines what each line says and how it is
//! spelled, `specs/Order.antt` which line may follow which, `specs/Ranges.antt` what numbers it may
//! hold, `specs/Agreement.antt` what has to agree, and `specs/Texts.antt` the text as a whole.
//!
//! A [`Word`] is what stands between two blanks, and comes in pieces. It takes a few bytes of
//! memory, whatever its length. At its end it says whether it is a keyword, a number or a step. A
//! number above 10^18 is read as 10^18, and an edge of a step above 1,000,000 as 1,000,000.
//!
//! - `word`, `number`: a word in pieces, and the numbers that digits spell.
//! - `next`: which line may stand next.
//! - `counts`, `item`, `fault`: the numbers of an instance, what a reader in pieces gives, and why
//!   bytes are no text of a certificate.
//! - `laws`: what is proved of all texts.
#![tactic(auto)]

mod counts;
mod examples;
mod fault;
mod item;
mod laws;
mod next;
mod number;
mod word;
mod word_examples;

pub use counts::Counts;
pub use fault::CertFault;
pub use item::Item;
pub use laws::{
    fine_is_spellable, light_texts_are_short, lines_are_cut, lines_are_unique,
    numerals_are_decimals, numerals_grow, read_is_spelled, readings_are_unique, shores_are_fine,
    spellable_is_fine, spelled_is_read, texts_are_short, texts_are_unique,
};
pub use next::Next;
pub use word::Word;
