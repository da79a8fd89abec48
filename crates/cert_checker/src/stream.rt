// The text of a certificate, taken in pieces.
ghost use Rattle.std.specs.Prelude.{◌≡◌, ◌≢◌, ℕ, ◌+◌, ◌≤◌, List, [], ◌∷◌, ◌++◌, All, IfOk, IsErrOf, OnOk, length, take};
ghost use Rattle.carp_base.specs.declared.fail.Fail.TheVariants.{Refused};
ghost use Rattle.branch_rules.specs.declared.node.Node.{Node};
ghost use Rattle.cert_lines.specs.declared.fault.CertFault.{CertFault as Fault};
ghost use Rattle.cert_lines.specs.declared.item.Item.TheVariants.{Head as HeadItem, Node as NodeItem};
ghost use Rattle.cert_lines.specs.Order.{LatestFirst};
ghost use Rattle.cert_lines.specs.Texts.{IsFaultOf};
ghost use Rattle.cert_format.specs.Good.{support_of};
ghost use Rattle.cert_checker.specs.Claims.{IsSetRead, claimed, support_in};
ghost use Rattle.cert_checker.specs.Streams.{HasStreamed, HasStreamedSome, IsChecked, ItemComes, MayWalk, SomeItemComes, StageAnswers, StageHolds, StageSays, TextLaws, Walks, head_with, stage_heads};

use crate::checker::Checker;
use crate::claim::Claim;
use crate::head::head_reason;
use crate::streaming::Checked;
use crate::{Answer, Reason};
use branch_rules::Node;
use carp_base::{Fail, Instance, Memory};
use cert_format::{CertFault, CertHead, CertReader, Item};
use cert_lines::{read_is_spelled, readings_are_unique, spellable_is_fine};
use std::alloc::Global;

/// How far a certificate is known.
#[derive(Drop)]
pub(crate) enum Stage {
    /// What stands before the nodes was not read yet.
    Before,
    /// It was read, and this is the first reason why it is not as it should be.
    Rejected(Reason),
    /// It is as it should be, and so much is known of the nodes.
    Walking(Checker),
}

/// A certificate of which some bytes were taken. It keeps what stands before the nodes, and one path of the tree.
#[derive(Drop)]
pub(crate) struct Stream {
    reader: CertReader,
    stage: Stage,
}

impl Stream {
    /// No bytes were taken.
    pub(crate) fn new(alloc: Global, inst: &Instance) -> Result<Stream, Memory>
        ensures { IfOk result (λ stream. HasStreamed inst.now stream []) }
    {
        inst.validity();
        Ok(Stream {
            reader: CertReader::new(alloc)?,
            stage: Stage::Before,
        })
    }

    /// Takes the bytes of a piece. It keeps nothing of those behind a bad line.
    pub(crate) fn take_piece(
        &mut self,
        alloc: Global,
        inst: &Instance,
        piece: &[u8],
    ) -> Result<(), Memory>
        requires { HasStreamedSome inst.now self.old }
        ensures { (bytes : List ℕ) → HasStreamed inst.now self.old bytes → OnOk result (HasStreamed inst.now self.new (bytes ++ piece.now)) }
    {
        let mut taken = 0;
        while taken < piece.len() {
            taken += self.take_run(alloc, inst, &piece[taken..])?;
        }
        Ok(())
    }

    // Takes bytes of a piece up to the next item, or all of them, and answers how many.
    fn take_run(&mut self, alloc: Global, inst: &Instance, piece: &[u8]) -> Result<usize, Memory>
        requires some { piece.now ≢ [] }
        requires streamed { HasStreamedSome inst.now self.old }
        ensures within { IfOk result (λ n. (1 ≤ n) × (n ≤ length piece.now)) }
        ensures streamed { (bytes : List ℕ) → HasStreamed inst.now self.old bytes → IfOk result (λ n. HasStreamed inst.now self.new (bytes ++ take n piece.now)) }
    {
        stream_laws();
        match self.reader.feed(piece) {
            Ok((count, item)) => {
                self.take_item(alloc, inst, item)?;
                Ok(count)
            }
            Err(Fail::Refused(_)) => Ok(piece.len()),
            Err(Fail::Memory) => Err(Memory),
        }
    }

    // Takes an item that the reader has given.
    fn take_item(&mut self, alloc: Global, inst: &Instance, item: Item) -> Result<(), Memory>
        requires { SomeItemComes inst.now self.old item }
        ensures reader { OnOk result (self.new.reader ≡ self.old.reader) }
        ensures stage { (before said : LatestFirst) → ItemComes inst.now self.old item before said → OnOk result (StageHolds inst.now said self.new.stage) }
    {
        match item {
            Item::Quiet | Item::Whole => Ok(()),
            Item::Head => self.take_head(alloc, inst),
            Item::Node(node) => self.take_node(alloc, inst, node),
        }
    }

    // Tests what stands before the nodes.
    fn take_head(&mut self, alloc: Global, inst: &Instance) -> Result<(), Memory>
        requires { SomeItemComes inst.now self.old HeadItem }
        ensures reader { OnOk result (self.new.reader ≡ self.old.reader) }
        ensures stage { (before said : LatestFirst) → ItemComes inst.now self.old HeadItem before said → OnOk result (StageHolds inst.now said self.new.stage) }
    {
        let Some(head) = self.reader.head() else {
            unreachable!()
        };
        self.stage = stage_of(alloc, &claim_of(inst, head))?;
        Ok(())
    }

    // Tests a node, if there is no reason before the nodes.
    fn take_node(&mut self, alloc: Global, inst: &Instance, node: Node) -> Result<(), Memory>
        requires { SomeItemComes inst.now self.old (NodeItem node) }
        ensures reader { OnOk result (self.new.reader ≡ self.old.reader) }
        ensures stage { (before said : LatestFirst) → ItemComes inst.now self.old (NodeItem node) before said → OnOk result (StageHolds inst.now said self.new.stage) }
    {
        let Stage::Walking(checker) = &mut self.stage else {
            return Ok(());
        };
        let Some(head) = self.reader.head() else {
            unreachable!()
        };
        walk_on(alloc, inst, head, checker, &node)
    }

    /// The answer, if the bytes are the text of a certificate, and else their first fault.
    pub(crate) fn finish(&self, alloc: Global, inst: &Instance) -> Result<Checked, Fail<CertFault>>
        requires { HasStreamedSome inst.now self.now }
        ensures checked { (bytes : List ℕ) → HasStreamed inst.now self.now bytes → IfOk result (IsChecked inst.now bytes) }
        ensures refused { (bytes : List ℕ) → HasStreamed inst.now self.now bytes → (fault : Fault) → IsErrOf result (Refused fault) → IsFaultOf bytes fault }
    {
        stream_laws();
        if let Err(fail) = self.reader.finish() {
            return Err(fail);
        }
        let Some(head) = self.reader.head() else {
            unreachable!()
        };
        let plan = head.plan.copy(alloc)?;
        Ok(Checked {
            answer: answer_of(&self.stage),
            cost: head.cost,
            bound: head.bound,
            plan,
        })
    }
}

// What is checked against the instance.
fn claim_of<'a>(inst: &'a Instance, head: &'a CertHead) -> Claim<'a>
    ensures inst { result.inst.now ≡ inst.now }
    ensures claimed { (nodes : List Node) → claimed result nodes ≡ head_with head.now nodes }
    ensures support { (nodes : List Node) → support_in result ≡ support_of inst.now (head_with head.now nodes) }
    ensures bound { result.bound ≡ head.now.bound }
{
    Claim {
        inst,
        counts: head.counts,
        cost: head.cost,
        bound: head.bound,
        plan: &head.plan,
        shores: &head.shores,
        sets: &head.sets,
    }
}

// What is known before any node was taken.
fn stage_of(alloc: Global, claim: &Claim<'_>) -> Result<Stage, Memory>
    requires { All (IsSetRead (support_in claim.now)) claim.now.sets.now }
    ensures heads { IfOk result (λ stage. stage_heads stage ≡ 1) }
    ensures says { IfOk result (λ stage. StageSays claim.now.inst.now (claimed claim.now []) stage) }
{
    match head_reason(alloc, claim)? {
        Some(reason) => Ok(Stage::Rejected(reason)),
        None => Ok(Stage::Walking(Checker::new(alloc, claim)?)),
    }
}

// Takes the next node.
fn walk_on(
    alloc: Global,
    inst: &Instance,
    head: &CertHead,
    checker: &mut Checker,
    node: &Node,
) -> Result<(), Memory>
    requires { MayWalk inst.now head.now checker.old node.now }
    ensures { (nodes : List Node) → Walks inst.now (head_with head.now nodes) checker.old → OnOk result (Walks inst.now (head_with head.now (nodes ++ node.now ∷ [])) checker.new) }
{
    let claim = claim_of(inst, head);
    checker.take(alloc, &claim, node)
}

// The answer after all nodes.
fn answer_of(stage: &Stage) -> Answer
    requires { stage_heads stage.now ≡ 1 }
    ensures { StageAnswers stage.now result }
{
    match stage {
        Stage::Before => unreachable!(),
        Stage::Rejected(reason) => Answer::Rejected(*reason),
        Stage::Walking(checker) => match checker.reason {
            Some(reason) => Answer::Rejected(reason),
            None => Answer::Accepted,
        },
    }
}

// The laws of texts that a stream rests on.
fn stream_laws()
    ensures { TextLaws }
{
    readings_are_unique();
    read_is_spelled();
    spellable_is_fine();
}
