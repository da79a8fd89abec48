// What has been read of a text so far.
ghost use Rattle.std.specs.Prelude.{◌≡◌, List, [], ◌∷◌, ℕ, true, false, Some, None, is_some, IfSome, IsSomeAnd, ◌≢◌, OnOk, MatchResult};
ghost use Rattle.std.specs.Bool.{MatchBool};
ghost use Rattle.dat_text.specs.Lines.{HasKey, IsOpened, has_number};
ghost use Rattle.dat_text.specs.Text.{stands, LatestFirst};
ghost use Rattle.dat_text.specs.Text.Statement.{states, lists};
ghost use Rattle.dat_text.specs.Drafts.{Matches, Takes, number_there, at_key, Ends};
ghost use Rattle.dat_text.specs.declared.fault.DatFault.TheVariants.{MissingKey, CountDiffers};

use crate::edge_line::read_edge;
use crate::fault::LineFault;
use crate::key_line::read_key;
use crate::kind::{Kind, kind_of};
use crate::{DatFault, Key};
use carp_base::{Fail, RawEdge};
use std::alloc::{AllocError, Global};

/// What stands at a key.
#[derive(Clone, Copy)]
pub(crate) enum Stated {
    /// The key stands on no line.
    Nowhere,
    /// The key stands, and a list begins.
    List,
    /// The key stands with this number.
    Number(u64),
}

/// What the lines before say.
#[derive(Drop)]
pub(crate) struct Draft {
    /// What stands at each key, by the key's place.
    pub(crate) stated: [Stated; 7],
    /// The last list key.
    pub(crate) list: Option<Key>,
    pub(crate) required: Vec<RawEdge>,
    pub(crate) others: Vec<RawEdge>,
}

/// What a text describes.
#[derive(Drop)]
pub(crate) struct Described {
    pub(crate) vertices: u64,
    pub(crate) depot: u64,
    pub(crate) capacity: u64,
    pub(crate) required: Vec<RawEdge>,
    pub(crate) others: Vec<RawEdge>,
}

impl Draft {
    pub(crate) fn new(alloc: Global) -> Draft
        ensures { Matches [] result }
    {
        Draft {
            stated: [Stated::Nowhere; 7],
            list: None,
            required: Vec::new(alloc),
            others: Vec::new(alloc),
        }
    }

    /// Takes a key with its number, if it did not stand before. Says whether it did not.
    fn state(&mut self, key: Key, number: Option<u64>) -> bool
        requires { is_some number ≡ has_number key }
        ensures { (said : LatestFirst) → Matches said self.old
            → MatchBool result ((stands key said ≡ false) × Matches (states key number ∷ said) self.new) (stands key said ≡ true) }
    {
        let place = key.place();
        if !matches!(self.stated[place], Stated::Nowhere) {
            return false;
        }
        match number {
            Some(number) => self.stated[place] = Stated::Number(number),
            None => {
                self.stated[place] = Stated::List;
                self.list = Some(key);
            }
        }
        true
    }

    /// Takes an edge of a list.
    fn put(&mut self, list: Key, edge: RawEdge) -> Result<(), AllocError>
        requires { has_number list ≡ false }
        ensures { (said : LatestFirst) → Matches said self.old → OnOk result (Matches (lists list edge ∷ said) self.new) }
    {
        match list {
            Key::RequiredList => self.required.push(edge)?,
            _ => self.others.push(edge)?,
        }
        Ok(())
    }

    /// Takes a key line.
    fn take_key(&mut self, key: Key, rest: &[u8], at: u64) -> Result<(), Fail<DatFault>>
        ensures { (said : LatestFirst) (line : List ℕ) → Matches said self.old → HasKey key line rest.now → Takes said at line self.new result }
    {
        match read_key(key, rest) {
            Err(LineFault::Syntax) => Err(Fail::Refused(DatFault::Syntax(at))),
            Err(LineFault::TooLong) => Err(Fail::Refused(DatFault::NumberTooLong(at))),
            Ok(number) => {
                if self.state(key, number) {
                    Ok(())
                } else {
                    Err(Fail::Refused(DatFault::DoubleKey(key)))
                }
            }
        }
    }

    /// Takes an edge line.
    fn take_edge(&mut self, line: &[u8], at: u64) -> Result<(), Fail<DatFault>>
        requires { IsOpened line.now }
        ensures { (said : LatestFirst) → Matches said self.old → Takes said at line.now self.new result }
    {
        let Some(list) = self.list else {
            return Err(Fail::Refused(DatFault::Syntax(at)));
        };
        match read_edge(list, line) {
            Err(LineFault::Syntax) => Err(Fail::Refused(DatFault::Syntax(at))),
            Err(LineFault::TooLong) => Err(Fail::Refused(DatFault::NumberTooLong(at))),
            Ok(edge) => Ok(self.put(list, edge)?),
        }
    }

    /// Takes a line, the one of this number.
    pub(crate) fn take_line(&mut self, line: &[u8], at: u64) -> Result<(), Fail<DatFault>>
        ensures { (said : LatestFirst) → Matches said self.old → Takes said at line.now self.new result }
    {
        match kind_of(line) {
            Kind::Skipped => Ok(()),
            Kind::Edge => self.take_edge(line, at),
            Kind::Key(key, rest) => self.take_key(key, rest, at),
        }
    }

    fn number(&self, key: Key) -> Option<u64>
        ensures { result ≡ number_there (at_key key self.now) }
    {
        match self.stated[key.place()] {
            Stated::Number(number) => Some(number),
            _ => None,
        }
    }

    /// The number of a key that has to stand.
    fn needed_number(&self, key: Key) -> Result<u64, DatFault>
        ensures { MatchResult result (λ n. number_there (at_key key self.now) ≡ Some n) (λ fault. (fault ≡ MissingKey key) × (number_there (at_key key self.now) ≡ None)) }
    {
        match self.number(key) {
            Some(number) => Ok(number),
            None => Err(DatFault::MissingKey(key)),
        }
    }

    /// What the lines describe, after the last of them.
    pub(crate) fn end(self) -> Result<Described, DatFault>
        ensures { (said : LatestFirst) → Matches said self → Ends said result }
    {
        let vertices = self.needed_number(Key::Vertices)?;
        let required = self.needed_number(Key::RequiredCount)?;
        let capacity = self.needed_number(Key::Capacity)?;
        let depot = self.needed_number(Key::Depot)?;
        agree(Key::RequiredCount, Some(required), self.required.len())?;
        agree(
            Key::OtherCount,
            self.number(Key::OtherCount),
            self.others.len(),
        )?;
        Ok(Described {
            vertices,
            depot,
            capacity,
            required: self.required,
            others: self.others,
        })
    }
}

/// Whether a count, if it is stated, is the length of its list.
fn agree(key: Key, stated: Option<u64>, found: usize) -> Result<(), DatFault>
    ensures { MatchResult result (λ _. IfSome stated (λ n. n ≡ found)) (λ fault. IsSomeAnd stated (λ n. (n ≢ found) × (fault ≡ CountDiffers key n found))) }
{
    match stated {
        Some(stated) if stated != found as u64 => Err(DatFault::CountDiffers {
            key,
            stated,
            found: found as u64,
        }),
        _ => Ok(()),
    }
}
