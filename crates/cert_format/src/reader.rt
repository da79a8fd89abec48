// A text in pieces.
ghost use Rattle.std.specs.Prelude.{◌≡◌, ◌≢◌, ◌↔◌, ℕ, ◌+◌, ◌<◌, ◌≤◌, List, [], ◌∷◌, ◌++◌, take, length, slice_index, true, false, IsTrue, None, Err, IfOk, IsErrOf, MatchOption, OnErr, OnOk};
ghost use Rattle.carp_base.specs.declared.fail.Fail.TheVariants.{Memory as NoMemory, Refused};
ghost use Rattle.cert_lines.specs.declared.fault.CertFault.{CertFault as Fault};
ghost use Rattle.cert_lines.specs.declared.next.Next.TheVariants.{Nothing};
ghost use Rattle.cert_lines.specs.Order.{LatestFirst, next_of};
ghost use Rattle.std.specs.List.{list_all};
ghost use Rattle.cert_lines.specs.Words.{HoldsWord};
ghost use Rattle.cert_lines.specs.Texts.{ReadsAs, BreaksAt, IsFaultOf, IsUnfinished};
ghost use Rattle.cert_format.specs.Judging.{context_of};
ghost use Rattle.cert_format.specs.LineStates.{HoldsLine};
ghost use Rattle.cert_format.specs.declared.reader.Standing.TheVariants.{Going, Bad, OutOfMemory};
ghost use Rattle.cert_format.specs.Certs.{cert_with, IsHeadOf, stated_nodes};
ghost use Rattle.cert_format.specs.Readers.{Gives, SaysSoFar};
ghost use Rattle.cert_format.specs.Held.{Advances, FillsUp, HasTaken, IsBroken, IsGoing, is_plain};

use crate::cert_reader::CertReader;
use crate::draft::Draft;
use crate::judging::Verdict;
use crate::line::LineState;
use crate::{Cert, CertHead};
use branch_rules::Tree;
use carp_base::{Fail, Memory};
use cert_lines::{CertFault, Item, Next, Word, lines_are_cut, readings_are_unique};
use std::alloc::Global;

/// How a reader stands.
#[derive(Clone, Copy, Debug, PartialEq, Eq)]
pub(crate) enum Standing {
    /// No line so far is bad.
    Going,
    /// The first bad line has this fault.
    Bad(CertFault),
    /// There was not enough memory.
    OutOfMemory,
}

impl CertReader {
    /// A reader that has taken no bytes. The only error is want of memory.
    pub fn new(alloc: Global) -> Result<CertReader, Memory>
        ensures { IfOk result (λ reader. HasTaken reader [] × (reader.standing ≡ Going)) }
    {
        Ok(CertReader {
            alloc,
            standing: Standing::Going,
            draft: Draft::new(alloc),
            line: LineState::new(alloc),
            word: Word::new(),
        })
    }

    /// Takes bytes of a piece, which is not empty: up to the byte that completes an item, or all of them if none does.
    /// The answer is how many bytes it took, and the item.
    ///
    /// As soon as the first bad line is complete, and from then on, its error is the fault of that line. After want of
    /// memory it answers nothing except want of memory. All calls together take expected time in proportion to the
    /// bytes.
    pub fn feed(&mut self, piece: &[u8]) -> Result<(usize, Item), Fail<CertFault>>
        requires { piece.now ≢ [] }
        ensures within { IfOk result (λ (taken, item). (1 ≤ taken) × (taken ≤ length piece.now)) }
        ensures gives { (bytes : List ℕ) → HasTaken self.old bytes → IfOk result (λ (taken, item). Gives bytes piece.now taken item × HasTaken self.new (bytes ++ take taken piece.now)) }
        ensures going { OnOk result (self.new.standing ≡ Going) }
        ensures bad { (bytes : List ℕ) → HasTaken self.old bytes → (fault : Fault) → IsErrOf result (Refused fault)
            → ((said : LatestFirst) × BreaksAt (bytes ++ piece.now) said fault) × HasTaken self.new (bytes ++ piece.now) × (self.new.standing ≡ Bad fault) }
        ensures stays { (fault : Fault) → self.old.standing ≡ Bad fault → result ≡ Err (Refused fault) }
        ensures memory { IsErrOf result NoMemory → self.new.standing ≡ OutOfMemory }
        ensures failed { self.old.standing ≡ OutOfMemory → IsErrOf result NoMemory }
    {
        match self.standing {
            Standing::Bad(fault) => return Err(Fail::Refused(fault)),
            Standing::OutOfMemory => return Err(Fail::Memory),
            Standing::Going => {}
        }
        self.feed_lines(piece)
    }

    /// What stands before the first node, as soon as the number of nodes was read. After want of memory it is `None`.
    pub fn head(&self) -> Option<&CertHead>
        ensures there { (bytes : List ℕ) (said : LatestFirst) → HasTaken self.now bytes → SaysSoFar bytes said
            → MatchOption result (stated_nodes said ≡ 0) (λ head. (1 ≤ stated_nodes said) × IsHeadOf said head.now) }
        ensures failed { self.now.standing ≡ OutOfMemory → result ≡ None }
    {
        match self.standing {
            Standing::OutOfMemory => None,
            _ => {
                readings_are_unique();
                self.draft.head()
            }
        }
    }

    /// Whether the bytes that were taken are the text of a certificate. If not, the error is their first fault. It
    /// answers `Memory` only if an earlier call did, and takes no memory itself.
    pub fn finish(&self) -> Result<(), Fail<CertFault>>
        ensures whole { (bytes : List ℕ) → HasTaken self.now bytes → OnOk result ((said : LatestFirst) × ReadsAs bytes said [] × (next_of said ≡ Nothing)) }
        ensures refused { (bytes : List ℕ) → HasTaken self.now bytes → (fault : Fault) → IsErrOf result (Refused fault) → IsFaultOf bytes fault }
        ensures memory { IsErrOf result NoMemory → self.now.standing ≡ OutOfMemory }
        ensures failed { self.now.standing ≡ OutOfMemory → IsErrOf result NoMemory }
    {
        match self.standing {
            Standing::Bad(fault) => Err(Fail::Refused(fault)),
            Standing::OutOfMemory => Err(Fail::Memory),
            Standing::Going => self.finish_lines(),
        }
    }

    /// The certificate of these nodes and of what stands before them.
    pub(crate) fn into_cert(self, tree: Tree) -> Cert
        ensures { result ≡ cert_with self.draft.head tree }
    {
        let head = self.draft.head;
        Cert {
            cost: head.cost,
            bound: head.bound,
            plan: head.plan,
            shores: head.shores,
            sets: head.sets,
            tree,
            counts: head.counts,
        }
    }

    // Whether the lines, none of which is bad, are those of a certificate, and nothing follows them.
    fn finish_lines(&self) -> Result<(), Fail<CertFault>>
        ensures whole { (bytes : List ℕ) (said : LatestFirst) (rest : List ℕ) → IsGoing self.now bytes said rest → OnOk result ((rest ≡ []) × (next_of said ≡ Nothing)) }
        ensures refused { (bytes : List ℕ) (said : LatestFirst) (rest : List ℕ) → IsGoing self.now bytes said rest
            → (fault : Fault) → IsErrOf result (Refused fault) → IsUnfinished said rest (length said + 1) fault }
        ensures no_memory { IsErrOf result NoMemory → ⊥ }
    {
        let at = self.draft.lines + 1;
        if !is_nothing(self.draft.next) {
            return Err(Fail::Refused(CertFault::Truncated(at)));
        }
        if !self.line.is_start() {
            return Err(Fail::Refused(CertFault::Syntax(at)));
        }
        if !self.word.is_empty() {
            return Err(Fail::Refused(CertFault::Syntax(at)));
        }
        Ok(())
    }

    /// Takes bytes of a piece, if no line so far is bad.
    pub(crate) fn feed_lines(&mut self, piece: &[u8]) -> Result<(usize, Item), Fail<CertFault>>
        requires some { piece.now ≢ [] }
        requires going { self.old.standing ≡ Going }
        ensures within { IfOk result (λ (taken, item). (1 ≤ taken) × (taken ≤ length piece.now)) }
        ensures gives { (bytes : List ℕ) (said : LatestFirst) (rest : List ℕ) → IsGoing self.old bytes said rest → IfOk result (λ (taken, item).
            (taken ≤ length piece.now) × FillsUp item taken (length piece.now) × Advances self.new (bytes ++ take taken piece.now) said item) }
        ensures going { OnOk result (self.new.standing ≡ Going) }
        ensures bad { (bytes : List ℕ) (said : LatestFirst) (rest : List ℕ) → IsGoing self.old bytes said rest → (fault : Fault) → IsErrOf result (Refused fault)
            → IsBroken self.new (bytes ++ piece.now) fault × (self.new.standing ≡ Bad fault) }
        ensures memory { IsErrOf result NoMemory → self.new.standing ≡ OutOfMemory }
    {
        let mut taken = 0;
        while taken < piece.len() {
            let (more, item) = match self.take_run(&piece[taken..]) {
                Ok(run) => run,
                Err(fail) => return Err(fail),
            };
            taken += more;
            let Item::Quiet = item else {
                return Ok((taken, item));
            };
        }
        Ok((taken, Item::Quiet))
    }

    // Takes bytes up to the first blank or LF, or else all of them.
    fn take_run(&mut self, piece: &[u8]) -> Result<(usize, Item), Fail<CertFault>>
        requires some { piece.now ≢ [] }
        requires going { self.old.standing ≡ Going }
        ensures within { IfOk result (λ (taken, item). (1 ≤ taken) × (taken ≤ length piece.now)) }
        ensures gives { (bytes : List ℕ) (said : LatestFirst) (rest : List ℕ) → IsGoing self.old bytes said rest → IfOk result (λ (taken, item).
            Advances self.new (bytes ++ take taken piece.now) said item) }
        ensures going { OnOk result (self.new.standing ≡ Going) }
        ensures bad { (bytes : List ℕ) (said : LatestFirst) (rest : List ℕ) → IsGoing self.old bytes said rest → (fault : Fault) → IsErrOf result (Refused fault)
            → IsBroken self.new (bytes ++ piece.now) fault × (self.new.standing ≡ Bad fault) }
        ensures memory { IsErrOf result NoMemory → self.new.standing ≡ OutOfMemory }
    {
        let end = run_of(piece);
        self.word.extend(&piece[..end]);
        if end == piece.len() {
            return Ok((end, Item::Quiet));
        }
        if piece[end] == b' ' {
            self.end_word()?;
            return Ok((end + 1, Item::Quiet));
        }
        match self.end_line() {
            Ok(item) => Ok((end + 1, item)),
            Err(fail) => Err(fail),
        }
    }

    // Takes a blank.
    fn end_word(&mut self) -> Result<(), Memory>
        requires { self.old.standing ≡ Going }
        ensures line { (words : List (List ℕ)) (text : List ℕ) → HoldsLine (context_of self.old.draft) self.old.line words → HoldsWord self.old.word text
            → OnOk result (HoldsLine (context_of self.new.draft) self.new.line (words ++ text ∷ [])) }
        ensures word { OnOk result (HoldsWord self.new.word []) }
        ensures draft { self.new.draft ≡ self.old.draft }
        ensures going { OnOk result (self.new.standing ≡ Going) }
        ensures err { OnErr result (self.new.standing ≡ OutOfMemory) }
    {
        match self.line.take_word(self.draft.context(), &self.word) {
            Ok(()) => {
                self.word.clear();
                Ok(())
            }
            Err(Memory) => {
                self.standing = Standing::OutOfMemory;
                Err(Memory)
            }
        }
    }

    // Takes an LF.
    fn end_line(&mut self) -> Result<Item, Fail<CertFault>>
        requires { self.old.standing ≡ Going }
        ensures gives { (bytes : List ℕ) (said : LatestFirst) (rest : List ℕ) → IsGoing self.old bytes said rest → IfOk result (λ item. Advances self.new (bytes ++ 10 ∷ []) said item) }
        ensures going { OnOk result (self.new.standing ≡ Going) }
        ensures bad { (bytes more : List ℕ) (said : LatestFirst) (rest : List ℕ) → IsGoing self.old bytes said rest → (fault : Fault) → IsErrOf result (Refused fault)
            → IsBroken self.new (bytes ++ 10 ∷ more) fault × (self.new.standing ≡ Bad fault) }
        ensures memory { IsErrOf result NoMemory → self.new.standing ≡ OutOfMemory }
    {
        lines_are_cut();
        self.end_word()?;
        let at = self.draft.lines + 1;
        let Ok(verdict) = self.draft.take_line(self.alloc, &mut self.line) else {
            self.standing = Standing::OutOfMemory;
            return Err(Fail::Memory);
        };
        self.line.clear();
        match verdict {
            Verdict::Good(item) => Ok(item),
            Verdict::Syntax => Err(self.refuse(CertFault::Syntax(at))),
            Verdict::Limit => Err(self.refuse(CertFault::Limit(at))),
        }
    }

    // A line with this fault was completed.
    fn refuse(&mut self, fault: CertFault) -> Fail<CertFault>
        ensures fault { result ≡ Refused fault }
        ensures bad { self.new.standing ≡ Bad fault }
        ensures draft { self.new.draft ≡ self.old.draft }
    {
        self.standing = Standing::Bad(fault);
        Fail::Refused(fault)
    }
}

// Whether no line may follow.
fn is_nothing(next: Next) -> bool
    ensures { IsTrue result ↔ (next ≡ Nothing) }
{
    matches!(next, Next::Nothing)
}

// How many bytes stand before the first blank or LF.
fn run_of(piece: &[u8]) -> usize
    ensures within { result ≤ length piece.now }
    ensures plain { list_all is_plain (take result piece.now) ≡ true }
    ensures ends { result < length piece.now → is_plain (slice_index piece.now result) ≡ false }
{
    for i in 0..piece.len() {
        if piece[i] == b' ' || piece[i] == b'\n' {
            return i;
        }
    }
    piece.len()
}
