// What the leaves of a tree show.
ghost use Rattle.std.specs.Prelude.{◌≡◌, ℕ, ◌≤◌, IfErr, IfOk, IfSome, IsTrue, OnOk};
ghost use Rattle.carp_base.specs.Allowed.{allows};
ghost use Rattle.decision_chains.specs.Pairs.{ArePairsIn};
ghost use Rattle.decision_chains.specs.FixedValue.{HasFixedValue};
ghost use Rattle.route_pricing.specs.Pricing.{AreSurcharges};
ghost use Rattle.branch_rules.specs.Bonds.{IsSurchargeTable};
ghost use Rattle.branch_rules.specs.Decisions.{IsFixed, rules_of};
ghost use Rattle.branch_rules.specs.Limits.{AreShoresIn};
ghost use Rattle.branch_rules.specs.Prices.{value_of};
ghost use Rattle.branch_rules.specs.Trees.{set_at};
ghost use Rattle.branch_rules.specs.declared.node.Node.TheVariants as nodes;
ghost use Rattle.cert_checker.specs.Claims.{IsBacked, IsSetNumber, support_in};
ghost use Rattle.cert_checker.specs.Leaves.{AreByCost, AreLeaves, ArePricesOf, IsFilledFor, IsFilledLike, IsIfNegative, NodeSays, PermitSame, TourSays, ValueSays};
ghost use Rattle.cert_checker.specs.Nodes.{HasWhatItNeeds, NodeFails, limit_of};
ghost use Rattle.cert_checker.specs.declared.reason.Reason.TheVariants.{MissingUpper, MissingYes};

use crate::Reason;
use crate::claim::Claim;
use branch_rules::{
    Branch, NoUpper, NoYes, PriceSet, surcharge_table, surcharges_are_bond_weights,
};
use carp_base::{Allowed, Fail, Instance, Memory};
use deadhead_paths::{Distances, cost_prices, distances};
use road_network::Network;
use route_pricing::Table;
use std::alloc::Global;
use task_tours::lawful_cost;

/// The prices of a set: those of services, the surcharges of pairs, and the distances by the prices of deadheads.
#[derive(Drop)]
pub(crate) struct SetPrices {
    set: u32,
    services: Vec<i64>,
    surcharges: Vec<i64>,
    dist: Distances,
}

/// What a table was last filled for.
#[derive(Drop)]
pub(crate) struct Filling {
    set: u32,
    allowed: Allowed,
}

/// What is kept from leaf to leaf. Price leaves of one set that follow each other share its prices. If the same pairs
/// are excluded at them, they share the table too.
#[derive(Drop)]
pub(crate) struct Leaves {
    net: Network,
    table: Table,
    costs: Option<Distances>,
    priced: Option<SetPrices>,
    filled: Option<Filling>,
}

impl Leaves {
    /// Nothing is kept yet.
    pub(crate) fn new(alloc: Global, claim: &Claim<'_>) -> Result<Leaves, Memory>
        ensures { IfOk result (AreLeaves (support_in claim.now)) }
    {
        Ok(Leaves {
            net: Network::new(alloc, claim.inst)?,
            table: Table::new(alloc, claim.inst)?,
            costs: None,
            priced: None,
            filled: None,
        })
    }

    /// Why a leaf that names a price set does not show the bound, if it does not.
    pub(crate) fn price_reason(
        &mut self,
        alloc: Global,
        claim: &Claim<'_>,
        branch: &Branch,
        set: u32,
        node: u64,
    ) -> Result<Option<Reason>, Memory>
        requires leaves { AreLeaves (support_in claim.now) self.old }
        requires backed { IsBacked (support_in claim.now) }
        requires pairs { ArePairsIn claim.now.inst.now branch.now }
        requires set { IsSetNumber (support_in claim.now) set }
        ensures leaves { OnOk result (AreLeaves (support_in claim.now) self.new) }
        ensures says { IfOk result (NodeSays (support_in claim.now) claim.now.bound node branch.now (nodes.Price set)) }
    {
        let value = match leaf_value(claim, branch, set, node) {
            Ok(value) => value,
            Err(reason) => return Ok(Some(reason)),
        };
        match self.cheap_tour(alloc, claim, branch, set)? {
            Some(value) => Ok(Some(Reason::TourTooCheap {
                set: u64::from(set),
                node,
                value,
            })),
            None => Ok(low_leaf(node, value, limit(claim.set(set).unit(), claim.bound))),
        }
    }

    /// Why a leaf that says that its branch is fixed does not show the bound, if it does not.
    pub(crate) fn fixed_reason(
        &mut self,
        alloc: Global,
        claim: &Claim<'_>,
        branch: &Branch,
        node: u64,
    ) -> Result<Option<Reason>, Memory>
        requires leaves { AreLeaves (support_in claim.now) self.old }
        requires pairs { ArePairsIn claim.now.inst.now branch.now }
        requires shores { AreShoresIn claim.now.inst.now claim.now.shores.now branch.now }
        ensures leaves { OnOk result (AreLeaves (support_in claim.now) self.new) }
        ensures says { IfOk result (NodeSays (support_in claim.now) claim.now.bound node branch.now nodes.Fixed) }
    {
        if !branch.fixed(alloc, claim.inst, claim.shores)? {
            return Ok(Some(Reason::NotFixed { node }));
        }
        let cost = self.fixed_cost(alloc, claim, branch)?;
        if cost < u128::from(claim.bound) {
            return Ok(Some(Reason::LeafLow {
                node,
                value: cost as i128,
                limit: limit(1, claim.bound),
            }));
        }
        Ok(None)
    }

    // The least value of a relaxed tour under the branch with the prices of the set, if it is negative.
    fn cheap_tour(
        &mut self,
        alloc: Global,
        claim: &Claim<'_>,
        branch: &Branch,
        set: u32,
    ) -> Result<Option<i128>, Memory>
        requires leaves { AreLeaves (support_in claim.now) self.old }
        requires backed { IsBacked (support_in claim.now) }
        requires pairs { ArePairsIn claim.now.inst.now branch.now }
        requires set { IsSetNumber (support_in claim.now) set }
        ensures leaves { OnOk result (AreLeaves (support_in claim.now) self.new) }
        ensures says { IfOk result (TourSays (support_in claim.now) branch.now (set_at (support_in claim.now) set)) }
    {
        surcharges_are_bond_weights();
        self.fill(alloc, claim, branch, set)?;
        Ok(if_negative(self.table.least()))
    }

    // Fills the table for a set and a branch, unless it is filled for them.
    fn fill(
        &mut self,
        alloc: Global,
        claim: &Claim<'_>,
        branch: &Branch,
        set: u32,
    ) -> Result<(), Memory>
        requires leaves { AreLeaves (support_in claim.now) self.old }
        requires backed { IsBacked (support_in claim.now) }
        requires pairs { ArePairsIn claim.now.inst.now branch.now }
        requires set { IsSetNumber (support_in claim.now) set }
        ensures leaves { OnOk result (AreLeaves (support_in claim.now) self.new) }
        ensures filled { OnOk result (IsFilledFor (support_in claim.now) branch.now set self.new) }
    {
        let allowed = branch.allowed(alloc, claim.inst)?;
        if self.is_filled(claim, set, &allowed) {
            return Ok(());
        }
        let kept = self.priced.take();
        let priced = prices_for(alloc, claim, &self.net, kept, set)?;
        let unit = claim.set(set).unit();
        self.table.fill(
            claim.inst,
            &priced.dist,
            unit,
            &priced.services,
            &allowed,
            &priced.surcharges,
        );
        self.priced = Some(priced);
        self.filled = Some(Filling { set, allowed });
        Ok(())
    }

    // Whether the table is filled for the set and the relation.
    fn is_filled(&self, claim: &Claim<'_>, set: u32, allowed: &Allowed) -> bool
        requires leaves { AreLeaves (support_in claim.now) self.now }
        requires on { allowed.now.size ≡ claim.now.inst.now.required }
        ensures { IsTrue result → IsFilledLike (support_in claim.now) set allowed.now self.now }
    {
        match &self.filled {
            None => false,
            Some(filled) => {
                filled.set == set && permit_same(&filled.allowed, allowed, claim.inst.required())
            }
        }
    }

    // What the cheapest tours along the chains of a fixed branch cost.
    fn fixed_cost(
        &mut self,
        alloc: Global,
        claim: &Claim<'_>,
        branch: &Branch,
    ) -> Result<u128, Memory>
        requires leaves { AreLeaves (support_in claim.now) self.old }
        requires pairs { ArePairsIn claim.now.inst.now branch.now }
        requires fixed { IsFixed claim.now.inst.now claim.now.shores.now branch.now }
        ensures leaves { OnOk result (AreLeaves (support_in claim.now) self.new) }
        ensures value { IfOk result (HasFixedValue claim.now.inst.now branch.now) }
    {
        let kept = self.costs.take();
        let dist = distances_by_cost(alloc, claim.inst, &self.net, kept)?;
        let plan = branch.fixed_plan(alloc, claim.inst, claim.shores, &dist)?;
        let cost = lawful_cost(alloc, claim.inst, &plan)?;
        self.costs = Some(dist);
        Ok(cost)
    }
}

// The value of the set of a leaf. The error is what the set needs and the branch lacks.
fn leaf_value(claim: &Claim<'_>, branch: &Branch, set: u32, node: u64) -> Result<i128, Reason>
    requires backed { IsBacked (support_in claim.now) }
    requires set { IsSetNumber (support_in claim.now) set }
    ensures value { IfOk result (λ value. value ≡ value_of (rules_of claim.now.inst.now claim.now.shores.now branch.now) (set_at (support_in claim.now) set)) }
    ensures needs { OnOk result (HasWhatItNeeds branch.now (set_at (support_in claim.now) set)) }
    ensures lacks { IfErr result (NodeFails (support_in claim.now) claim.now.bound node branch.now (nodes.Price set)) }
{
    let prices = claim.set(set);
    let value = match branch.value_at(claim.inst, claim.shores, prices) {
        Ok(value) => value,
        Err(lacks) => return Err(missing_upper(set, node, &lacks)),
    };
    match branch.check_yes(prices) {
        Ok(()) => Ok(value),
        Err(lacks) => Err(missing_yes(set, node, &lacks)),
    }
}

// That the set of a leaf needs an upper number that its branch does not have.
fn missing_upper(set: u32, node: u64, lacks: &NoUpper) -> Reason
    ensures { result ≡ MissingUpper set node lacks.now.shore }
{
    Reason::MissingUpper {
        set: u64::from(set),
        node,
        shore: lacks.shore,
    }
}

// That the set of a leaf needs a yes that its branch does not say.
fn missing_yes(set: u32, node: u64, lacks: &NoYes) -> Reason
    ensures { result ≡ MissingYes set node lacks.now.a lacks.now.b }
{
    Reason::MissingYes {
        set: u64::from(set),
        node,
        a: lacks.a,
        b: lacks.b,
    }
}

// The prices of a set, made anew unless those that are kept are of it.
fn prices_for(
    alloc: Global,
    claim: &Claim<'_>,
    net: &Network,
    kept: Option<SetPrices>,
    set: u32,
) -> Result<SetPrices, Memory>
    requires net { net.now ≡ claim.now.inst.now }
    requires kept { IfSome kept (λ priced. ArePricesOf (support_in claim.now) priced.set priced) }
    requires backed { IsBacked (support_in claim.now) }
    requires set { IsSetNumber (support_in claim.now) set }
    ensures number { IfOk result (λ priced. priced.set ≡ set) }
    ensures prices { IfOk result (ArePricesOf (support_in claim.now) set) }
{
    match kept {
        Some(priced) if priced.set == set => Ok(priced),
        _ => set_prices(alloc, claim, net, set),
    }
}

// The prices of a set. No price of a deadhead is negative in a claim whose head is right.
fn set_prices(
    alloc: Global,
    claim: &Claim<'_>,
    net: &Network,
    set: u32,
) -> Result<SetPrices, Memory>
    requires net { net.now ≡ claim.now.inst.now }
    requires backed { IsBacked (support_in claim.now) }
    requires set { IsSetNumber (support_in claim.now) set }
    ensures number { IfOk result (λ priced. priced.set ≡ set) }
    ensures prices { IfOk result (ArePricesOf (support_in claim.now) set) }
{
    let prices = claim.set(set);
    let deadheads = match prices.edge_prices(alloc, claim.inst, claim.shores) {
        Ok(deadheads) => deadheads,
        Err(Fail::Memory) => return Err(Memory),
        Err(Fail::Refused(_)) => unreachable!(),
    };
    Ok(SetPrices {
        set,
        services: service_prices(alloc, prices)?,
        surcharges: set_surcharges(alloc, claim.inst, prices)?,
        dist: distances(alloc, claim.inst, net, &deadheads)?,
    })
}

// The prices of services of a set.
fn service_prices(alloc: Global, set: &PriceSet) -> Result<Vec<i64>, Memory>
    ensures { IfOk result (λ prices. prices.items ≡ set.now.services) }
{
    let count = set.services() as u32;
    let mut prices = Vec::with_capacity(alloc, count as usize)?;
    for edge in 1..count + 1 {
        prices.push(set.service(edge))?;
    }
    Ok(prices)
}

// The surcharges of pairs by the groups of a set.
fn set_surcharges(alloc: Global, inst: &Instance, set: &PriceSet) -> Result<Vec<i64>, Memory>
    ensures charged { IfOk result (λ table. IsSurchargeTable inst.now.required set.now.groups table.items) }
    ensures fit { IfOk result (λ table. AreSurcharges inst.now.required table.items) }
{
    surcharges_are_bond_weights();
    let table = surcharge_table(alloc, inst.required(), set.groups())?;
    Ok(table)
}

// The distances by cost, made anew unless they are kept.
fn distances_by_cost(
    alloc: Global,
    inst: &Instance,
    net: &Network,
    kept: Option<Distances>,
) -> Result<Distances, Memory>
    requires net { net.now ≡ inst.now }
    requires kept { IfSome kept (AreByCost inst.now) }
    ensures { IfOk result (AreByCost inst.now) }
{
    match kept {
        Some(dist) => Ok(dist),
        None => {
            let prices = cost_prices(alloc, inst)?;
            distances(alloc, inst, net, &prices)
        }
    }
}

// Whether two relations permit the same pairs of the first m edges.
fn permit_same(one: &Allowed, other: &Allowed, required: u32) -> bool
    requires one { one.now.size ≡ required }
    requires other { other.now.size ≡ required }
    requires small { required ≤ 600 }
    ensures { IsTrue result → PermitSame required one.now other.now }
{
    for edge in 1..required + 1 {
        if !permit_same_at(one, other, required, edge) {
            return false;
        }
    }
    true
}

// Whether two relations permit the same pairs of an edge.
fn permit_same_at(one: &Allowed, other: &Allowed, required: u32, edge: u32) -> bool
    requires one { one.now.size ≡ required }
    requires other { other.now.size ≡ required }
    requires from_one { 1 ≤ edge }
    requires in_range { edge ≤ required }
    requires small { required ≤ 600 }
    ensures { IsTrue result → (b : ℕ) → 1 ≤ b → b ≤ required → allows one.now edge b ≡ allows other.now edge b }
{
    for second in 1..required + 1 {
        if one.may(edge, second) != other.may(edge, second) {
            return false;
        }
    }
    true
}

// The number, if it is negative.
fn if_negative(number: Option<i128>) -> Option<i128>
    ensures { IsIfNegative number result }
{
    match number {
        Some(value) if value < 0 => number,
        _ => None,
    }
}

// The denominator times one less than the bound.
fn limit(unit: u64, bound: u64) -> i128
    requires { unit ≤ 1000000 }
    ensures { result ≡ limit_of unit bound }
{
    i128::from(unit) * (i128::from(bound) - 1)
}

// Why a leaf of this value does not show the bound, if it does not.
fn low_leaf(node: u64, value: i128, limit: i128) -> Option<Reason>
    ensures { ValueSays node value limit result }
{
    (value <= limit).then_some(Reason::LeafLow { node, value, limit })
}
