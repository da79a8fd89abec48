// The chains of the yes pairs.
ghost use Rattle.std.specs.Prelude.{◌≡◌, ℕ, ◌+◌, ◌-◌, ◌<◌, ◌≤◌, ◌++◌, ◌∷◌, ◌||◌, [], Bool, List, All, IfOk, length, replicate, slice_index_or, false};
ghost use Rattle.decision_chains.specs.ChainTables.{AreChains, AreMerged, IsChainTable, IsUpTo, chain_load, closes_chain, is_barred, is_many, label_at, load_of, near_at, near_has, overloads};
ghost use Rattle.decision_chains.specs.Exclusions.{LeadsOn};
ghost use Rattle.decision_chains.specs.Pairs.{ArePairsIn, HasPairWithin, IsPairWithin};
ghost use Rattle.decision_chains.specs.declared.decision.Decision.{Decision};
ghost use Rattle.decision_chains.specs.declared.decision.Decision.TheVariants.{Yes};
ghost use Rattle.decision_chains.specs.declared.near.Near.TheVariants.{Free};
ghost use Rattle.carp_base.specs.Problem.{IsRequired};

use crate::Decision;
use crate::near::Near;
use carp_base::{Instance, Memory};
use std::alloc::Global;

/// The chains that the yes pairs of some decisions make of the required edges (Bode and Irnich 2012). Edges that yes
/// pairs join, directly or by way of others, are one chain. An edge without a yes pair is a chain by itself.
#[derive(Drop)]
pub struct Chains<'a> {
    /// The instance whose required edges these are.
    pub inst: &'a Instance,
    /// The decisions.
    pub decisions: &'a [Decision],
    /// Whether an edge has three yes neighbours or more, or yes pairs form a cycle.
    pub tangled: bool,
    // Edges of one chain have one label, which is the number of an edge.
    labels: Vec<u32>,
    near: Vec<Near>,
    // At the place of each label, the demand of its chain.
    loads: Vec<u64>,
}

// Each edge by itself: its own label.
fn first_labels(alloc: Global, inst: &Instance) -> Result<Vec<u32>, Memory>
    ensures long { IfOk result (λ labels. length labels.items ≡ inst.now.required) }
    ensures each { IfOk result (λ labels. (k d : ℕ) → k < inst.now.required → slice_index_or labels.items k d ≡ k + 1) }
{
    let mut labels = Vec::new(alloc);
    for edge in 1..inst.required() + 1 {
        labels.push(edge)?;
    }
    Ok(labels)
}

// No edge has a neighbour.
fn none_near(alloc: Global, inst: &Instance) -> Result<Vec<Near>, Memory>
    ensures { IfOk result (λ near. near.items ≡ replicate inst.now.required Free) }
{
    Ok(vec![in alloc; Near::Free; inst.required() as usize]?)
}

// One label is given up for another.
fn relabel(labels: &mut [u32], to: u32, from: u32)
    ensures { AreMerged to from labels.old labels.new }
{
    for i in 0..labels.len() {
        if labels[i] == from {
            labels[i] = to;
        }
    }
}

// Whether a pair closes a cycle, or one of its edges has too many neighbours now.
fn tangles(closes: bool, at_a: Near, at_b: Near) -> bool
    ensures { result ≡ (closes || is_many at_a || is_many at_b) }
{
    closes || at_a.is_many() || at_b.is_many()
}

// Takes one yes pair in. Whether it closes a cycle, or gives an edge a third neighbour.
fn take_in(labels: &mut [u32], near: &mut [Near], a: u32, b: u32) -> bool
    requires pair { IsPairWithin (length labels.old) a b }
    requires long { length near.old ≡ length labels.old }
    ensures { (branch : List Decision) (tangled : Bool) → AreChains (length labels.old) branch labels.old near.old tangled → AreChains (length labels.old) (branch ++ Yes a b ∷ []) labels.new near.new (tangled || result) }
{
    let (i, j) = (a as usize - 1, b as usize - 1);
    if near[i].has(b) {
        return false;
    }
    let at_a = near[i].with(b);
    let at_b = near[j].with(a);
    near[i] = at_a;
    near[j] = at_b;
    let (to, from) = (labels[i], labels[j]);
    relabel(labels, to, from);
    tangles(to == from, at_a, at_b)
}

// Takes one decision in.
fn follow(labels: &mut [u32], near: &mut [Near], decision: &Decision) -> bool
    requires pair { HasPairWithin (length labels.old) decision.now }
    requires long { length near.old ≡ length labels.old }
    ensures { (branch : List Decision) (tangled : Bool) → AreChains (length labels.old) branch labels.old near.old tangled → AreChains (length labels.old) (branch ++ decision.now ∷ []) labels.new near.new (tangled || result) }
{
    match *decision {
        Decision::Yes { a, b } => take_in(labels, near, a, b),
        _ => false,
    }
}

// Takes all decisions in. Whether an edge has three yes neighbours, or yes pairs form a cycle.
fn sweep(labels: &mut [u32], near: &mut [Near], decisions: &[Decision]) -> bool
    requires pairs { All (HasPairWithin (length labels.old)) decisions.now }
    requires start { AreChains (length labels.old) [] labels.old near.old false }
    ensures { AreChains (length labels.old) decisions.now labels.new near.new result }
{
    let mut tangled = false;
    for decision in decisions {
        tangled |= follow(labels, near, decision);
    }
    tangled
}

// The load of each chain, at the place of its label.
fn loads_of(alloc: Global, inst: &Instance, labels: &[u32]) -> Result<Vec<u64>, Memory>
    requires long { length labels.now ≡ inst.now.required }
    requires within { All (IsUpTo inst.now.required) labels.now }
    ensures long { IfOk result (λ loads. length loads.items ≡ inst.now.required) }
    ensures each { IfOk result (λ loads. (l : ℕ) → IsUpTo inst.now.required l → slice_index_or loads.items (l - 1) 0 ≡ load_of inst.now labels.now l) }
    ensures small { IfOk result (λ loads. (l : ℕ) → IsUpTo inst.now.required l → slice_index_or loads.items (l - 1) 0 ≤ 18000000) }
{
    let mut loads = vec![in alloc; 0; inst.required() as usize]?;
    add_up(&mut loads, inst, labels);
    Ok(loads)
}

// Adds the demand of each edge to the load of its chain.
fn add_up(loads: &mut [u64], inst: &Instance, labels: &[u32])
    requires room { length loads.old ≡ inst.now.required }
    requires none { (k : ℕ) → k < length loads.old → slice_index_or loads.old k 0 ≡ 0 }
    requires long { length labels.now ≡ inst.now.required }
    requires within { All (IsUpTo inst.now.required) labels.now }
    ensures each { (l : ℕ) → IsUpTo inst.now.required l → slice_index_or loads.new (l - 1) 0 ≡ load_of inst.now labels.now l }
    ensures small { (l : ℕ) → IsUpTo inst.now.required l → slice_index_or loads.new (l - 1) 0 ≤ 18000000 }
{
    for edge in 1..inst.required() + 1 {
        let label = labels[edge as usize - 1];
        loads[label as usize - 1] += inst.edge(edge).demand;
    }
}

impl<'a> Chains<'a> {
    /// The chains of the yes pairs of some decisions, whose pairs are of required edges. The only error is want of
    /// memory.
    ///
    /// With m required edges and d decisions it takes time in proportion to m * (m + d) at most, and to m * m + d if
    /// yes pairs form no cycle and give no edge three neighbours. It takes memory in proportion to m.
    pub fn of(
        alloc: Global,
        inst: &'a Instance,
        decisions: &'a [Decision],
    ) -> Result<Chains<'a>, Memory>
        requires { ArePairsIn inst.now decisions.now }
        ensures table { IfOk result IsChainTable }
        ensures inst { IfOk result (λ chains. chains.inst.now ≡ inst.now) }
        ensures decisions { IfOk result (λ chains. chains.decisions.now ≡ decisions.now) }
    {
        let mut labels = first_labels(alloc, inst)?;
        let mut near = none_near(alloc, inst)?;
        let tangled = sweep(&mut labels, &mut near, decisions);
        let loads = loads_of(alloc, inst, &labels)?;
        Ok(Chains {
            inst,
            decisions,
            tangled,
            labels,
            near,
            loads,
        })
    }

    // The label of an edge.
    fn label(&self, edge: u32) -> u32
        requires table { IsChainTable self.now }
        requires edge { IsRequired self.now.inst.now edge }
        ensures value { result ≡ label_at self.now.labels.items edge }
        ensures within { IsUpTo self.now.inst.now.required result }
    {
        self.labels[edge as usize - 1]
    }

    // The yes neighbours of an edge.
    fn near(&self, edge: u32) -> Near
        requires table { IsChainTable self.now }
        requires edge { IsRequired self.now.inst.now edge }
        ensures { result ≡ near_at self.now.near.items edge }
    {
        self.near[edge as usize - 1]
    }

    /// The next edge on the way along yes pairs over an edge that was reached from `before`, or `None` if the chain
    /// ends at the edge. `before` is 0 if the way begins at the edge. If the edge has two yes neighbours and `before`
    /// is neither of them, the next edge is one of them. It takes no memory and a fixed time.
    pub fn next(&self, edge: u32, before: u32) -> Option<u32>
        requires table { IsChainTable self.now }
        requires untangled { self.now.tangled ≡ false }
        requires edge { IsRequired self.now.inst.now edge }
        ensures { LeadsOn self.now.decisions.now edge before result }
    {
        self.near(edge).besides(before)
    }

    // The demand of the chain of an edge.
    pub(crate) fn load(&self, edge: u32) -> u64
        requires table { IsChainTable self.now }
        requires edge { IsRequired self.now.inst.now edge }
        ensures value { result ≡ chain_load self.now edge }
        ensures small { result ≤ 18000000 }
    {
        self.loads[self.label(edge) as usize - 1]
    }

    // Whether the pair joins the two ends of one chain.
    fn closes(&self, a: u32, b: u32) -> bool
        requires table { IsChainTable self.now }
        requires a { IsRequired self.now.inst.now a }
        requires b { IsRequired self.now.inst.now b }
        ensures { result ≡ closes_chain self.now a b }
    {
        let (at_a, at_b) = (self.near(a), self.near(b));
        self.label(a) == self.label(b) && at_a.is_end() && at_b.is_end() && !at_a.has(b)
    }

    // Whether the pair joins two chains that together are above the capacity.
    fn overloads(&self, a: u32, b: u32) -> bool
        requires table { IsChainTable self.now }
        requires a { IsRequired self.now.inst.now a }
        requires b { IsRequired self.now.inst.now b }
        ensures { result ≡ overloads self.now a b }
    {
        self.label(a) != self.label(b) && self.load(a) + self.load(b) > self.inst.capacity()
    }

    // Whether the pair is excluded for another reason than that a decision says no to it.
    pub(crate) fn bars(&self, a: u32, b: u32) -> bool
        requires table { IsChainTable self.now }
        requires a { IsRequired self.now.inst.now a }
        requires b { IsRequired self.now.inst.now b }
        ensures { result ≡ is_barred self.now a b }
    {
        a == b
            || self.near(a).has_two_besides(b)
            || self.near(b).has_two_besides(a)
            || self.closes(a, b)
            || self.overloads(a, b)
    }

    // Whether a yes to the pair is known. If an edge has more than two neighbours, none is known.
    pub(crate) fn joins(&self, a: u32, b: u32) -> bool
        requires table { IsChainTable self.now }
        requires a { IsRequired self.now.inst.now a }
        ensures { result ≡ near_has (near_at self.now.near.items a) b }
    {
        self.near(a).has(b)
    }
}
