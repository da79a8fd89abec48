// What the good lines say.
ghost use Rattle.std.specs.Prelude.{◌≡◌, ℕ, ◌+◌, ◌-◌, ◌<◌, ◌≤◌, [], ◌∷◌, length, map, IfOk, MatchOption, OnErr, OnOk, ◌++◌, IsTrue, false, ◌↔◌};
ghost use Rattle.std.specs.List.{All, list_all};
ghost use Rattle.std.specs.List.Sorted.{IsStrictlyIncreasing};
ghost use Rattle.cut_pool.specs.Pools.{Holds};
ghost use Rattle.cut_pool.specs.Shores.{IsShore};
ghost use Rattle.branch_rules.specs.Limits.{IsFineWeight, IsPriceNumber, IsPriceSet};
ghost use Rattle.cert_lines.specs.Agreement.{BecomesWhole};
ghost use Rattle.cert_lines.specs.declared.next.Next.TheVariants as stands;
ghost use Rattle.cert_lines.specs.Order.{children, LatestFirst, nodes_to_come, sets_to_come, shores_to_come, tours_to_come};
ghost use Rattle.cert_lines.specs.Lines as said_by;
ghost use Rattle.cert_lines.specs.Certificates.{nodes_of, services_of, unit_of};
ghost use Rattle.cert_format.specs.Lists.{price_ok, weight_fine};
ghost use Rattle.cert_format.specs.Groups.{AreSetGroups};
ghost use Rattle.cert_format.specs.Drafts.{AreFinePrices, HoldsDraft, IsBounded};

use crate::CertHead;
use crate::line::{Context, is_price};
use branch_rules::{Node, PriceSet, Weight, WeightedGroup};
use carp_base::{Fail, Memory};
use cert_lines::{Counts, Next};
use cut_pool::{PoolFull, Shore, ShorePool};
use plan_model::{Plan, Step, Walk};
use std::alloc::Global;
use std::mem::swap;

/// What the good lines of a text say.
#[derive(Drop)]
pub(crate) struct Draft {
    /// How many lines there are.
    pub(crate) lines: u64,
    /// Which line stands next.
    pub(crate) next: Next,
    /// How many steps the tours have.
    pub(crate) steps: u64,
    /// The denominator of the latest prices.
    pub(crate) unit: u64,
    /// The latest prices.
    pub(crate) services: Vec<i64>,
    /// Whether the text is of version 4.
    pub(crate) fourth: bool,
    /// Whether some price set has a group.
    pub(crate) grouped: bool,
    /// The set whose groups stand next.
    pub(crate) set: Option<PriceSet>,
    /// What stands before the first node.
    pub(crate) head: CertHead,
}

impl Draft {
    /// What no lines say.
    pub(crate) fn new(alloc: Global) -> Draft
        ensures bounded { IsBounded result }
        ensures held { HoldsDraft result [] }
    {
        Draft {
            lines: 0,
            next: Next::Version,
            steps: 0,
            unit: 0,
            services: Vec::new(alloc),
            fourth: false,
            grouped: false,
            set: None,
            head: CertHead {
                cost: 0,
                bound: 0,
                plan: Plan::new(alloc),
                shores: ShorePool::new(alloc),
                sets: Vec::new(alloc),
                nodes: 0,
                counts: None,
            },
        }
    }

    /// What tells which line may follow.
    pub(crate) fn context(&self) -> Context
        ensures next { result.next ≡ self.now.next }
        ensures steps { result.steps ≡ self.now.steps }
        ensures shores { result.shores ≡ length self.now.head.shores }
        ensures sets { result.sets ≡ length self.now.head.sets.items }
    {
        Context {
            next: self.next,
            steps: self.steps,
            shores: u64::from(self.head.shores.len()),
            sets: self.head.sets.len() as u64,
        }
    }

    /// What stands before the first node, if the number of nodes is known.
    pub(crate) fn head(&self) -> Option<&CertHead>
        ensures { MatchOption result (self.now.head.nodes ≡ 0) (λ head. (1 ≤ self.now.head.nodes) × (head.now ≡ self.now.head)) }
    {
        if self.head.nodes == 0 {
            return None;
        }
        Some(&self.head)
    }

    /// Takes over the version.
    pub(crate) fn accept_version(&mut self, n: u64)
        requires bounded { IsBounded self.old }
        requires next { self.old.next ≡ stands.Version }
        ensures bounded { IsBounded self.new }
        ensures held { (said : LatestFirst) → HoldsDraft self.old said → HoldsDraft self.new (said_by.version n ∷ said) }
    {
        self.lines += 1;
        self.next = if n == 1 { Next::Cost } else { Next::Counts };
        self.fourth = n == 4;
    }

    /// Takes over the numbers of the instance.
    pub(crate) fn accept_counts(&mut self, counts: Counts)
        requires bounded { IsBounded self.old }
        requires next { self.old.next ≡ stands.Counts }
        ensures bounded { IsBounded self.new }
        ensures held { (said : LatestFirst) → HoldsDraft self.old said → HoldsDraft self.new (said_by.counts counts ∷ said) }
    {
        self.lines += 1;
        self.next = Next::Cost;
        self.head.counts = Some(counts);
    }

    /// Takes over the cost.
    pub(crate) fn accept_cost(&mut self, n: u64)
        requires bounded { IsBounded self.old }
        requires next { self.old.next ≡ stands.Cost }
        ensures bounded { IsBounded self.new }
        ensures held { (said : LatestFirst) → HoldsDraft self.old said → HoldsDraft self.new (said_by.cost n ∷ said) }
    {
        self.lines += 1;
        self.next = Next::Bound;
        self.head.cost = n;
    }

    /// Takes over the lower bound.
    pub(crate) fn accept_bound(&mut self, n: u64)
        requires bounded { IsBounded self.old }
        requires next { self.old.next ≡ stands.Bound }
        ensures bounded { IsBounded self.new }
        ensures held { (said : LatestFirst) → HoldsDraft self.old said → HoldsDraft self.new (said_by.bound n ∷ said) }
    {
        self.lines += 1;
        self.next = Next::Tours;
        self.head.bound = n;
    }

    /// Takes over the number of tours.
    pub(crate) fn accept_tours(&mut self, n: u64)
        requires bounded { IsBounded self.old }
        requires next { self.old.next ≡ stands.Tours }
        requires few { n ≤ 100000 }
        ensures bounded { IsBounded self.new }
        ensures held { (said : LatestFirst) → HoldsDraft self.old said → HoldsDraft self.new (said_by.tours n ∷ said) }
    {
        self.lines += 1;
        self.next = tours_to_come(n);
    }

    /// Takes over a tour of so many steps.
    pub(crate) fn accept_tour(
        &mut self,
        alloc: Global,
        left: u64,
        steps: &[Step],
    ) -> Result<(), Memory>
        requires bounded { IsBounded self.old }
        requires next { self.old.next ≡ stands.Tour left }
        requires few { length steps.now ≤ 2000000 - self.old.steps }
        ensures bounded { IsBounded self.new }
        ensures held { (said : LatestFirst) → HoldsDraft self.old said → OnOk result (HoldsDraft self.new (said_by.tour (length steps.now) steps.now ∷ said)) }
    {
        let walk = walk_of(alloc, steps)?;
        self.head.plan.push(walk)?;
        self.lines += 1;
        self.steps += steps.len() as u64;
        self.next = tours_to_come(left - 1);
        Ok(())
    }

    /// Takes over the number of shores.
    pub(crate) fn accept_shores(&mut self, n: u64)
        requires bounded { IsBounded self.old }
        requires next { self.old.next ≡ stands.Shores }
        requires few { n ≤ 2000 }
        ensures bounded { IsBounded self.new }
        ensures held { (said : LatestFirst) → HoldsDraft self.old said → HoldsDraft self.new (said_by.shores n ∷ said) }
    {
        self.lines += 1;
        self.next = shores_to_come(n);
    }

    /// Takes over a shore, if it is no earlier one.
    pub(crate) fn accept_shore(
        &mut self,
        alloc: Global,
        left: u64,
        vertices: &[u32],
    ) -> Result<bool, Memory>
        requires bounded { IsBounded self.old }
        requires next { self.old.next ≡ stands.Shore left }
        requires shore { IsShore vertices.now }
        ensures bounded { IsBounded self.new }
        ensures new { IfOk result (λ new. IsTrue new ↔ (¬ (Holds self.old.head.shores vertices.now))) }
        ensures held { (said : LatestFirst) → HoldsDraft self.old said → IfOk result (λ new. IsTrue new
            → HoldsDraft self.new (said_by.shore (length vertices.now) vertices.now ∷ said)) }
        ensures same { IfOk result (λ new. new ≡ false → Holds self.old.head.shores vertices.now × (self.new ≡ self.old)) }
    {
        let shore = Shore::from_list(alloc, vertices)?;
        if !add_new(&mut self.head.shores, shore)? {
            return Ok(false);
        }
        self.lines += 1;
        self.next = shores_to_come(left - 1);
        Ok(true)
    }

    /// Takes over the number of price sets.
    pub(crate) fn accept_sets(&mut self, n: u64)
        requires bounded { IsBounded self.old }
        requires next { self.old.next ≡ stands.Sets }
        requires few { n ≤ 256 }
        ensures bounded { IsBounded self.new }
        ensures held { (said : LatestFirst) → HoldsDraft self.old said → HoldsDraft self.new (said_by.sets n ∷ said) }
    {
        self.lines += 1;
        self.next = sets_to_come(n);
    }

    /// Takes over the prices of a set, in exchange for the latest ones.
    pub(crate) fn accept_prices(&mut self, left: u64, unit: u64, services: &mut Vec<i64>)
        requires bounded { IsBounded self.old }
        requires next { self.old.next ≡ stands.Prices left }
        ensures bounded { IsBounded self.new }
        ensures held { (said : LatestFirst) → HoldsDraft self.old said → AreFinePrices unit services.old.items
            → HoldsDraft self.new (said_by.prices unit (length services.old.items) services.old.items ∷ said) }
    {
        swap(&mut self.services, services);
        self.unit = unit;
        self.lines += 1;
        self.next = Next::Weights { left };
    }

    /// Takes over the weights of a set, if they are those of a price set.
    pub(crate) fn accept_weights(
        &mut self,
        alloc: Global,
        left: u64,
        weights: &[Weight],
    ) -> Result<bool, Memory>
        requires bounded { IsBounded self.old }
        requires next { self.old.next ≡ stands.Weights left }
        ensures bounded { IsBounded self.new }
        ensures fine { IfOk result (λ fine. IsTrue fine ↔ IsPriceSet (record { unit = self.old.unit; services = self.old.services.items; weights = weights.now; groups = [] })) }
        ensures held { (said : LatestFirst) → HoldsDraft self.old said → IfOk result (λ fine. IsTrue fine
            → HoldsDraft self.new (said_by.weights (length weights.now) weights.now ∷ said)) }
        ensures same { IfOk result (λ fine. fine ≡ false → self.new ≡ self.old) }
    {
        if !is_price_set(self.unit, &self.services, weights) {
            return Ok(false);
        }
        let set = PriceSet::new(alloc, self.unit, &self.services, weights)?;
        self.place_set(left, set)?;
        Ok(true)
    }

    // Takes over a set without groups: in version 4 they stand on the next line.
    fn place_set(&mut self, left: u64, set: PriceSet) -> Result<(), Memory>
        requires bounded { IsBounded self.old }
        requires next { self.old.next ≡ stands.Weights left }
        ensures bounded { IsBounded self.new }
        ensures held { (said : LatestFirst) (n : ℕ) → HoldsDraft self.old said → set ≡ record { unit = unit_of said; services = services_of said; weights = set.weights; groups = [] }
            → OnOk result (HoldsDraft self.new (said_by.weights n set.weights ∷ said)) }
    {
        if self.fourth {
            self.set = Some(set);
            self.lines += 1;
            self.next = Next::Bonds { left };
            return Ok(());
        }
        self.head.sets.push(set)?;
        self.lines += 1;
        self.next = sets_to_come(left - 1);
        Ok(())
    }

    /// Takes over the groups of the set that is held.
    pub(crate) fn accept_groups(
        &mut self,
        left: u64,
        groups: Vec<WeightedGroup>,
    ) -> Result<(), Memory>
        requires bounded { IsBounded self.old }
        requires next { self.old.next ≡ stands.Bonds left }
        requires groups { AreSetGroups groups.items }
        ensures bounded { IsBounded self.new }
        ensures held { (said : LatestFirst) → HoldsDraft self.old said → OnOk result (HoldsDraft self.new (said_by.bonds (length groups.items) groups.items said_by.nothing ∷ said)) }
    {
        let Some(set) = self.set.take() else {
            return Err(Memory);
        };
        let some = !groups.is_empty();
        self.grouped = self.grouped || some;
        self.lines += 1;
        self.next = sets_to_come(left - 1);
        self.head.sets.push(set.with_groups(groups))?;
        Ok(())
    }

    /// Takes over the number of nodes.
    pub(crate) fn accept_nodes(&mut self, n: u64)
        requires bounded { IsBounded self.old }
        requires next { self.old.next ≡ stands.Nodes }
        requires some { 1 ≤ n }
        requires few { n ≤ 2097153 }
        ensures bounded { IsBounded self.new }
        ensures none { (said : LatestFirst) → HoldsDraft self.old said → nodes_of said ≡ [] }
        ensures held { (said : LatestFirst) → HoldsDraft self.old said → HoldsDraft self.new (said_by.nodes n ∷ said) }
    {
        self.lines += 1;
        self.next = Next::Node { left: n, open: 1 };
        self.head.nodes = n;
    }

    /// Takes over a node, if the tree becomes whole with it exactly at the last one.
    pub(crate) fn accept_node(&mut self, left: u64, subtrees: u64, node: Node) -> bool
        requires bounded { IsBounded self.old }
        requires next { self.old.next ≡ stands.Node left subtrees }
        ensures bounded { IsBounded self.new }
        ensures whole { IsTrue result ↔ BecomesWhole left subtrees node }
        ensures held { (said : LatestFirst) → HoldsDraft self.old said → IsTrue result → HoldsDraft self.new (said_by.node node ∷ said) }
        ensures same { result ≡ false → self.new ≡ self.old }
    {
        let after = subtrees - 1 + children(node);
        if (after == 0) != (left == 1) {
            return false;
        }
        self.lines += 1;
        self.next = nodes_to_come(left - 1, after);
        true
    }

    /// Takes over the end.
    pub(crate) fn accept_end(&mut self)
        requires bounded { IsBounded self.old }
        requires next { self.old.next ≡ stands.End }
        ensures bounded { IsBounded self.new }
        ensures held { (said : LatestFirst) → HoldsDraft self.old said → HoldsDraft self.new (said_by.end ∷ said) }
    {
        self.lines += 1;
        self.next = Next::Nothing;
    }
}

// A tour stands next if tours are still to come, and else the number of shores.
fn tours_to_come(left: u64) -> Next
    ensures { result ≡ tours_to_come left }
{
    if left == 0 {
        Next::Shores
    } else {
        Next::Tour { left }
    }
}

fn shores_to_come(left: u64) -> Next
    ensures { result ≡ shores_to_come left }
{
    if left == 0 {
        Next::Sets
    } else {
        Next::Shore { left }
    }
}

fn sets_to_come(left: u64) -> Next
    ensures { result ≡ sets_to_come left }
{
    if left == 0 {
        Next::Nodes
    } else {
        Next::Prices { left }
    }
}

fn nodes_to_come(left: u64, subtrees: u64) -> Next
    ensures { result ≡ nodes_to_come left subtrees }
{
    if left == 0 {
        Next::End
    } else {
        Next::Node {
            left,
            open: subtrees,
        }
    }
}

// How many subtrees a node has.
fn children(node: Node) -> u64
    ensures { result ≡ children node }
{
    match node {
        Node::Pair { .. } | Node::Cut { .. } => 2,
        Node::Price { .. } | Node::Void | Node::Fixed => 0,
    }
}

// A walk of these steps.
fn walk_of(alloc: Global, steps: &[Step]) -> Result<Walk, Memory>
    requires { length steps.now ≤ 2000000 }
    ensures { IfOk result (λ walk. walk ≡ steps.now) }
{
    let mut walk = Walk::new(alloc);
    for step in steps {
        walk.push(*step)?;
    }
    Ok(walk)
}

// Whether these are the prices and the weights of a price set.
fn is_price_set(unit: u64, services: &[i64], weights: &[Weight]) -> bool
    ensures { IsTrue result ↔ IsPriceSet (record { unit = unit; services = services.now; weights = weights.now; groups = [] }) }
{
    1 <= unit
        && unit <= 1_000_000
        && services.len() <= 600
        && weights.len() <= 2000
        && are_prices(services)
        && are_weights(weights)
        && shores_rise(weights)
}

// Whether all prices are in their range.
fn are_prices(services: &[i64]) -> bool
    ensures { IsTrue result ↔ All IsPriceNumber services.now }
{
    all_prices(services)
}

// The same, as the function of the definition.
fn all_prices(services: &[i64]) -> bool
    ensures { result ≡ list_all price_ok services.now }
{
    services.iter().all(|price| is_price(*price))
}

// Whether all weights are in their ranges, and none is 0.
fn are_weights(weights: &[Weight]) -> bool
    ensures { IsTrue result ↔ All IsFineWeight weights.now }
{
    all_weights(weights)
}

// The same, as the function of the definition.
fn all_weights(weights: &[Weight]) -> bool
    ensures { result ≡ list_all weight_fine weights.now }
{
    weights.iter().all(|weight| is_fine_weight(*weight))
}

// Whether a weight is in its range, and not 0, and on a shore.
fn is_fine_weight(weight: Weight) -> bool
    ensures { result ≡ weight_fine weight }
{
    weight.shore != 0 && weight.weight != 0 && is_price(weight.weight)
}

// Adds a shore, if it is no earlier one. The answer is whether it is new.
fn add_new(pool: &mut ShorePool, shore: Shore) -> Result<bool, Memory>
    requires { length pool.old < 2000 }
    ensures new { IfOk result (λ new. IsTrue new → (¬ (Holds pool.old shore)) × (pool.new ≡ pool.old ++ shore ∷ [])) }
    ensures old { IfOk result (λ new. new ≡ false → Holds pool.old shore × (pool.new ≡ pool.old)) }
    ensures err { OnErr result (pool.new ≡ pool.old) }
{
    let before = pool.len();
    match pool.add(shore) {
        Ok(number) => Ok(before < number),
        Err(Fail::Memory) => Err(Memory),
        Err(Fail::Refused(PoolFull)) => unreachable!(),
    }
}

// Whether the numbers of the shores rise.
fn shores_rise(weights: &[Weight]) -> bool
    ensures { IsTrue result ↔ IsStrictlyIncreasing (map (λ w. w.shore) weights.now) }
{
    for i in 1..weights.len() {
        if weights[i - 1].shore >= weights[i].shore {
            return false;
        }
    }
    true
}
