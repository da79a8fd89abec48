// What is made of a whole line.
ghost use Rattle.std.specs.Prelude.{◌≡◌, ◌≤◌, ℕ, ◌&&◌, List, length, true, IfOk, IsTrue, ◌↔◌, slice_index, [], ◌∷◌};
ghost use Rattle.cut_pool.specs.Shores.{IsShore};
ghost use Rattle.cert_lines.specs.Agreement.{IsPairInOrder};
ghost use Rattle.cert_lines.specs.Order.{LatestFirst, left_of, open_of};
ghost use Rattle.cert_format.specs.Drafts.{HoldsDraft, IsBounded};
ghost use Rattle.cert_format.specs.Judging.{AreNodeNumbers, ShoreJudged, WeightsJudged, node_with, GroupsJudged, SetsJudged, are_stated, awaits_weight, context_of, ends_well, has_stated, Judged, list_in_range, NodeJudged};
ghost use Rattle.cert_format.specs.Kinds.{expected, field_count, IsOneOf, next_for};
ghost use Rattle.cert_format.specs.declared.kind.Kind.TheVariants.{Cut, Fixed, Pair, Price, Void};
ghost use Rattle.cert_format.specs.Lists.{fields_ok};
ghost use Rattle.cert_format.specs.LineStates.{HoldsLine};
ghost use Rattle.cert_format.specs.Readiness.{IsReady};
ghost use Rattle.cert_lines.specs.declared.next.Next.TheVariants as stands;

use crate::draft::Draft;
use crate::groups::{Awaited, are_set_groups};
use crate::items::Items;
use crate::kind::Kind;
use crate::line::{Form, LineState, fields_in_range};
use branch_rules::{Node, Weight, WeightedGroup};
use carp_base::Memory;
use cert_lines::{Counts, Item, Next, numerals_grow};
use std::alloc::Global;
use std::mem;

/// What is made of a whole line.
#[derive(Clone, Copy, Debug, PartialEq, Eq)]
pub(crate) enum Verdict {
    /// It does not have the shape of a line that may stand there, or what it says does not agree.
    Syntax,
    /// A number is out of its range.
    Limit,
    /// It is good, and gives this item.
    Good(Item),
}

// Whether the version is one that there is, and no weight is to come.
fn ends_well(kind: Kind, line: &LineState) -> bool
    requires { length line.now.fields.items ≡ field_count kind }
    ensures { result ≡ ends_well kind line.now }
{
    match kind {
        Kind::Version => line.fields[0] == 1 || line.fields[0] == 2 || line.fields[0] == 4,
        Kind::Weights => line.waiting.is_none(),
        _ => true,
    }
}

// Whether the items that came are in range.
fn list_in_range(kind: Kind, line: &LineState) -> bool
    ensures { result ≡ list_in_range kind line.now }
{
    match kind {
        Kind::Tour => line.steps.in_range,
        Kind::Shore => line.vertices.in_range,
        Kind::Prices => line.services.in_range,
        Kind::Weights => line.weights.in_range,
        Kind::Bonds => line.groups.in_range,
        _ => true,
    }
}

// Whether as many items came as are stated.
fn has_stated(kind: Kind, line: &LineState) -> bool
    requires { length line.now.fields.items ≡ field_count kind }
    ensures { result ≡ has_stated kind line.now }
{
    match kind {
        Kind::Tour => !line.steps.more && line.steps.kept.len() as u64 == line.fields[0],
        Kind::Shore => are_stated(&line.vertices),
        Kind::Prices => are_stated(&line.services),
        Kind::Weights => are_stated(&line.weights),
        Kind::Bonds => {
            line.groups.in_order
                && awaits_weight(line.groups.awaited)
                && line.groups.kept.len() as u64 == line.fields[0]
        }
        _ => true,
    }
}

fn are_stated<T: Drop>(items: &Items<T>) -> bool
    ensures { result ≡ are_stated items.now }
{
    !items.more && items.found == items.stated
}

// Whether the last group is complete.
fn awaits_weight(awaited: Awaited) -> bool
    ensures { result ≡ awaits_weight awaited }
{
    matches!(awaited, Awaited::Weight)
}

// Whether a line of this kind may stand next.
fn may_stand(next: Next, kind: Kind) -> bool
    ensures { IsTrue result ↔ IsOneOf (expected next) kind }
{
    match next {
        Next::Version => matches!(kind, Kind::Version),
        Next::Counts => matches!(kind, Kind::Counts),
        Next::Cost => matches!(kind, Kind::Cost),
        Next::Bound => matches!(kind, Kind::Bound),
        Next::Tours => matches!(kind, Kind::Tours),
        Next::Tour { .. } => matches!(kind, Kind::Tour),
        Next::Shores => matches!(kind, Kind::Shores),
        Next::Shore { .. } => matches!(kind, Kind::Shore),
        Next::Sets => matches!(kind, Kind::Sets),
        Next::Prices { .. } => matches!(kind, Kind::Prices),
        Next::Weights { .. } => matches!(kind, Kind::Weights),
        Next::Bonds { .. } => matches!(kind, Kind::Bonds),
        Next::Nodes => matches!(kind, Kind::Nodes),
        Next::Node { .. } => is_node(kind),
        Next::End => matches!(kind, Kind::End),
        Next::Nothing => false,
    }
}

fn is_node(kind: Kind) -> bool
    ensures { IsTrue result ↔ IsOneOf (Pair ∷ Cut ∷ Price ∷ Void ∷ Fixed ∷ []) kind }
{
    matches!(
        kind,
        Kind::Pair | Kind::Cut | Kind::Price | Kind::Void | Kind::Fixed
    )
}

// Whether vertices are some, in rising order.
fn is_shore(vertices: &[u32]) -> bool
    ensures { IsTrue result ↔ IsShore vertices.now }
{
    if vertices.is_empty() {
        return false;
    }
    for i in 1..vertices.len() {
        if vertices[i - 1] >= vertices[i] {
            return false;
        }
    }
    true
}

// How many lines of the kind that stands next are to come.
fn left_of(next: Next) -> u64
    ensures { result ≡ left_of next }
{
    match next {
        Next::Tour { left }
        | Next::Shore { left }
        | Next::Prices { left }
        | Next::Weights { left }
        | Next::Bonds { left }
        | Next::Node { left, .. } => left,
        _ => 0,
    }
}

// How many whole subtrees are to come.
fn open_of(next: Next) -> u64
    ensures { result ≡ open_of next }
{
    match next {
        Next::Node { open, .. } => open,
        _ => 0,
    }
}

// Whether the first edge of a pair is the lesser.
fn is_in_order(node: Node) -> bool
    ensures { IsTrue result ↔ IsPairInOrder node }
{
    match node {
        Node::Pair { a, b } => a < b,
        _ => true,
    }
}

impl Draft {
    /// Takes over a line of which all words have come, if it is good.
    pub(crate) fn take_line(
        &mut self,
        alloc: Global,
        line: &mut LineState,
    ) -> Result<Verdict, Memory>
        requires { IsBounded self.old }
        ensures bounded { IsBounded self.new }
        ensures judged { (said : LatestFirst) (words : List (List ℕ)) → HoldsDraft self.old said → HoldsLine (context_of self.old) line.old words
            → IfOk result (λ verdict. Judged verdict said words self.new) }
    {
        let Form::Shaped(kind) = line.form else {
            return Ok(Verdict::Syntax);
        };
        if !may_stand(self.next, kind) {
            return Ok(Verdict::Syntax);
        }
        if line.fields.len() != kind.fields() {
            return Ok(Verdict::Syntax);
        }
        numerals_grow();
        if !ends_well(kind, line) {
            return Ok(Verdict::Syntax);
        }
        if !is_in_range(self, kind, line) {
            return Ok(Verdict::Limit);
        }
        if !has_stated(kind, line) {
            return Ok(Verdict::Syntax);
        }
        let verdict = self.accept(alloc, kind, line)?;
        Ok(verdict)
    }

    // Takes over a line that ends well, has its numbers in range and as many items as it states.
    fn accept(&mut self, alloc: Global, kind: Kind, line: &mut LineState) -> Result<Verdict, Memory>
        requires bounded { IsBounded self.old }
        requires all { length line.old.fields.items ≡ field_count kind }
        requires in_range { fields_ok kind (context_of self.old) line.old.fields.items ≡ true }
        requires stated { has_stated kind line.old ≡ true }
        requires next { self.old.next ≡ next_for kind self.old.next }
        ensures bounded { IsBounded self.new }
        ensures judged { (said : LatestFirst) (words : List (List ℕ)) → HoldsDraft self.old said → IsReady kind said line.old words
            → IfOk result (λ verdict. Judged verdict said words self.new) }
    {
        let left = left_of(self.next);
        match kind {
            Kind::Version => {
                self.accept_version(line.fields[0]);
                Ok(Verdict::Good(Item::Quiet))
            }
            Kind::Counts => {
                self.accept_counts(counts_of(line.fields.as_slice()));
                Ok(Verdict::Good(Item::Quiet))
            }
            Kind::Cost => {
                self.accept_cost(line.fields[0]);
                Ok(Verdict::Good(Item::Quiet))
            }
            Kind::Bound => {
                self.accept_bound(line.fields[0]);
                Ok(Verdict::Good(Item::Quiet))
            }
            Kind::Tours => {
                self.accept_tours(line.fields[0]);
                Ok(Verdict::Good(Item::Quiet))
            }
            Kind::Tour => {
                self.accept_tour(alloc, left, line.steps.kept.as_slice())?;
                Ok(Verdict::Good(Item::Quiet))
            }
            Kind::Shores => {
                self.accept_shores(line.fields[0]);
                Ok(Verdict::Good(Item::Quiet))
            }
            Kind::Shore => {
                let verdict = self.judge_shore(alloc, left, line.vertices.kept.as_slice())?;
                Ok(verdict)
            }
            Kind::Sets => { Ok(self.judge_sets(line.fields[0])) }
            Kind::Prices => {
                self.accept_prices(left, line.fields[0], &mut line.services.kept);
                Ok(Verdict::Good(Item::Quiet))
            }
            Kind::Weights => {
                let verdict = self.judge_weights(alloc, left, line.weights.kept.as_slice())?;
                Ok(verdict)
            }
            Kind::Bonds => {
                let groups = mem::replace(&mut line.groups.kept, Vec::new(alloc));
                let verdict = self.judge_groups(left, groups)?;
                Ok(verdict)
            }
            Kind::Nodes => {
                self.accept_nodes(line.fields[0]);
                Ok(Verdict::Good(Item::Head))
            }
            Kind::End => {
                self.accept_end();
                Ok(Verdict::Good(Item::Whole))
            }
            Kind::Pair | Kind::Cut | Kind::Price | Kind::Void | Kind::Fixed => {
                Ok(self.judge_node(node_of(kind, line.fields.as_slice())))
            }
        }
    }

    // Takes over a shore, if it is in rising order and new.
    fn judge_shore(&mut self, alloc: Global, left: u64, vertices: &[u32]) -> Result<Verdict, Memory>
        requires bounded { IsBounded self.old }
        requires next { self.old.next ≡ stands.Shore left }
        ensures bounded { IsBounded self.new }
        ensures judged { (said : LatestFirst) → HoldsDraft self.old said → IfOk result (λ verdict. ShoreJudged verdict vertices.now said self.new) }
    {
        if !is_shore(vertices) {
            return Ok(Verdict::Syntax);
        }
        if !self.accept_shore(alloc, left, vertices)? {
            return Ok(Verdict::Syntax);
        }
        Ok(Verdict::Good(Item::Quiet))
    }

    // Takes over weights, if they are those of a price set.
    fn judge_weights(
        &mut self,
        alloc: Global,
        left: u64,
        weights: &[Weight],
    ) -> Result<Verdict, Memory>
        requires bounded { IsBounded self.old }
        requires next { self.old.next ≡ stands.Weights left }
        ensures bounded { IsBounded self.new }
        ensures judged { (said : LatestFirst) → HoldsDraft self.old said → IfOk result (λ verdict. WeightsJudged verdict weights.now said self.new) }
    {
        if !self.accept_weights(alloc, left, weights)? {
            return Ok(Verdict::Syntax);
        }
        Ok(Verdict::Good(Item::Quiet))
    }

    // Takes over the number of sets. In version 4 there is at least one.
    fn judge_sets(&mut self, n: u64) -> Verdict
        requires bounded { IsBounded self.old }
        requires next { self.old.next ≡ stands.Sets }
        requires few { n ≤ 256 }
        ensures bounded { IsBounded self.new }
        ensures judged { (said : LatestFirst) → HoldsDraft self.old said → SetsJudged result n said self.new }
    {
        if self.fourth && n == 0 {
            return Verdict::Syntax;
        }
        self.accept_sets(n);
        Verdict::Good(Item::Quiet)
    }

    // Takes over groups, if they are those of a price set. At the last set some set must have a group.
    fn judge_groups(&mut self, left: u64, groups: Vec<WeightedGroup>) -> Result<Verdict, Memory>
        requires bounded { IsBounded self.old }
        requires next { self.old.next ≡ stands.Bonds left }
        ensures bounded { IsBounded self.new }
        ensures judged { (said : LatestFirst) → HoldsDraft self.old said → IfOk result (λ verdict. GroupsJudged verdict groups.items left said self.new) }
    {
        if !are_set_groups(&groups) {
            return Ok(Verdict::Syntax);
        }
        if left == 1 && !self.grouped && groups.is_empty() {
            return Ok(Verdict::Syntax);
        }
        self.accept_groups(left, groups)?;
        Ok(Verdict::Good(Item::Quiet))
    }

    // Takes over a node.
    fn judge_node(&mut self, node: Node) -> Verdict
        requires bounded { IsBounded self.old }
        requires next { self.old.next ≡ stands.Node (left_of self.old.next) (open_of self.old.next) }
        ensures bounded { IsBounded self.new }
        ensures judged { (said : LatestFirst) → HoldsDraft self.old said → NodeJudged result node (left_of self.old.next) (open_of self.old.next) said self.new }
    {
        if !is_in_order(node) {
            return Verdict::Syntax;
        }
        let (left, subtrees) = (left_of(self.next), open_of(self.next));
        if !self.accept_node(left, subtrees, node) {
            return Verdict::Syntax;
        }
        Verdict::Good(Item::Node(node))
    }
}

// The numbers of an instance.
fn counts_of(fields: &[u64]) -> Counts
    requires { length fields.now ≡ 5 }
    ensures { result ≡ record { vertices = slice_index fields.now 0; edges = slice_index fields.now 1; required = slice_index fields.now 2; capacity = slice_index fields.now 3; demand = slice_index fields.now 4 } }
{
    Counts {
        vertices: fields[0],
        edges: fields[1],
        required: fields[2],
        capacity: fields[3],
        demand: fields[4],
    }
}

// The node of a line of the tree.
fn node_of(kind: Kind, fields: &[u64]) -> Node
    requires all { length fields.now ≡ field_count kind }
    requires small { AreNodeNumbers kind fields.now }
    ensures { result ≡ node_with kind fields.now }
{
    match kind {
        Kind::Pair => Node::Pair {
            a: fields[0] as u32,
            b: fields[1] as u32,
        },
        Kind::Cut => Node::Cut {
            shore: fields[0] as u32,
            k: fields[1],
        },
        Kind::Price => Node::Price {
            set: fields[0] as u32,
        },
        Kind::Void => Node::Void,
        _ => Node::Fixed,
    }
}

// Whether all numbers of a line are in their ranges.
fn is_in_range(draft: &Draft, kind: Kind, line: &LineState) -> bool
    requires bounded { IsBounded draft.now }
    requires all { length line.now.fields.items ≡ field_count kind }
    ensures { result ≡ (fields_ok kind (context_of draft.now) line.now.fields.items && list_in_range kind line.now) }
{
    fields_in_range(kind, draft.context(), line.fields.as_slice()) && list_in_range(kind, line)
}
