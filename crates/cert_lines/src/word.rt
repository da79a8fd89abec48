// A word in pieces.
ghost use Rattle.std.specs.Prelude.{◌≡◌, ℕ, List, [], ◌++◌, ◌∷◌, ◌<◌, ◌↔◌, IsTrue, length, MatchOption, IfSome, ◌≤◌};
ghost use Rattle.cert_lines.specs.Numbers.{IsMarkedNumber, IsNatural, IsNoNatural, IsNoStep, IsNoWhole, IsNoMarkedNumber, IsStep, IsWhole, limit, mark_with};
ghost use Rattle.cert_lines.specs.Lines.{step_word};
ghost use Rattle.plan_model.specs.declared.step.Step.{Step};
ghost use Rattle.cert_lines.specs.Words.{HoldsWord};

use crate::number::natural_in;
use arrayvec::ArrayVec;
use plan_model::Step;

// How many bytes of a word are kept.
const KEPT: usize = 20;

// A greater edge of a step is read as this one.
const GREATEST_EDGE: u64 = 1_000_000;

/// A word of any length, by its first 20 bytes and whether all later ones are digits. Each call except
/// [`extend`](Word::extend) takes the same time whatever the length.
#[derive(Drop)]
pub struct Word {
    kept: ArrayVec<u8, KEPT>,
    more: bool,
    digits: bool,
}

impl Word {
    /// The word of no bytes.
    pub fn new() -> Word
        ensures { HoldsWord result [] }
    {
        Word {
            kept: ArrayVec::new(),
            more: false,
            digits: true,
        }
    }

    /// Makes this the word of no bytes.
    pub fn clear(&mut self)
        ensures { HoldsWord self.new [] }
    {
        *self = Word::new();
    }

    /// Adds bytes at the end, in time in proportion to them.
    pub fn extend(&mut self, piece: &[u8])
        ensures { (text : List ℕ) → HoldsWord self.old text → HoldsWord self.new (text ++ piece.now) }
    {
        for byte in piece {
            self.push(*byte);
        }
    }

    /// Whether the word has no bytes.
    pub fn is_empty(&self) -> bool
        ensures { (text : List ℕ) → HoldsWord self.now text → (IsTrue result ↔ (text ≡ [])) }
    {
        self.kept.as_slice().is_empty()
    }

    /// Whether the word is this keyword, byte by byte. A keyword has fewer than 20 bytes.
    pub fn is(&self, keyword: &[u8]) -> bool
        requires { length keyword.now < 20 }
        ensures { (text : List ℕ) → HoldsWord self.now text → (IsTrue result ↔ (text ≡ keyword.now)) }
    {
        !self.more && self.kept.as_slice() == keyword
    }

    /// The number that the word spells, or `None` if it spells none. A number is `0`, or digits of which the first is
    /// not `0`. A number above 10^18 is read as 10^18.
    pub fn natural(&self) -> Option<u64>
        ensures small { IfSome result (λ told. told ≤ limit) }
        ensures told { (text : List ℕ) → HoldsWord self.now text → MatchOption result (IsNoNatural text) (IsNatural text) }
    {
        natural_in(self.kept.as_slice(), self.more, self.digits)
    }

    /// The whole number that the word spells, or `None` if it spells none. A whole number is a number, or `-` and a
    /// number other than `0`. If its size is above 10^18, it is read as 10^18 with the same sign.
    pub fn whole(&self) -> Option<i64>
        ensures { (text : List ℕ) → HoldsWord self.now text → MatchOption result (IsNoWhole text) (IsWhole text) }
    {
        if let Some(told) = self.natural() {
            return Some(told as i64);
        }
        let Some(size) = self.marked(b'-') else {
            return None;
        };
        if size == 0 {
            return None;
        }
        Some(-(size as i64))
    }

    /// The step that the word spells, or `None` if it spells none. A step is one of the marks `+`, `-`, `>` and `<` and
    /// the number of an edge. An edge above 1,000,000 is read as 1,000,000.
    pub fn step(&self) -> Option<Step>
        ensures { (text : List ℕ) → HoldsWord self.now text → MatchOption result (IsNoStep text) (IsStep text) }
    {
        if let Some(step) = self.step_marked(b'+', true, true) {
            return Some(step);
        }
        if let Some(step) = self.step_marked(b'-', true, false) {
            return Some(step);
        }
        if let Some(step) = self.step_marked(b'>', false, true) {
            return Some(step);
        }
        self.step_marked(b'<', false, false)
    }

    // The step with this mark.
    fn step_marked(&self, mark: u8, served: bool, forward: bool) -> Option<Step>
        ensures { (text : List ℕ) → HoldsWord self.now text → mark ≡ mark_with served forward
            → MatchOption result ((s : Step) → s.served ≡ served → s.forward ≡ forward → text ≡ step_word s → ⊥) (IsStep text) }
    {
        let Some(number) = self.marked(mark) else {
            return None;
        };
        let edge = number.min(GREATEST_EDGE) as u32;
        Some(Step {
            edge,
            forward,
            served,
        })
    }

    // The number behind a mark.
    fn marked(&self, mark: u8) -> Option<u64>
        ensures small { IfSome result (λ told. told ≤ limit) }
        ensures told { (text : List ℕ) → HoldsWord self.now text → MatchOption result (IsNoMarkedNumber mark text) (IsMarkedNumber mark text) }
    {
        let kept = self.kept.as_slice();
        if kept.is_empty() {
            return None;
        }
        if kept[0] != mark {
            return None;
        }
        natural_in(&kept[1..], self.more, self.digits)
    }

    // Adds a byte at the end.
    fn push(&mut self, byte: u8)
        ensures { (text : List ℕ) → HoldsWord self.old text → HoldsWord self.new (text ++ byte ∷ []) }
    {
        if self.kept.try_push(byte).is_err() {
            self.more = true;
            self.digits = self.digits && byte.is_ascii_digit();
        }
    }
}
