// The tests that come before the nodes.
ghost use Rattle.std.specs.Prelude.{◌≡◌, IfOk, MatchOption, List, All};
ghost use Rattle.plan_model.specs.Plans.{plan_cost};
ghost use Rattle.branch_rules.specs.Refusals.{IsTooHeavy, NoneTooHeavy};
ghost use Rattle.branch_rules.specs.declared.node.Node.{Node};
ghost use Rattle.cert_checker.specs.Claims.{IsSetRead, claimed, support_in};
ghost use Rattle.cert_checker.specs.declared.reason.Reason.TheVariants.{CountsDiffer, WeightTooLarge};
ghost use Rattle.cert_checker.specs.Layers.{LayerSays};
ghost use Rattle.cert_checker.specs.Reasons.{CountsAgree, HeadIsRight, PlanIsLawful, PlanIsRight, PricesAreRight, ShoresAreRight};

use crate::claim::Claim;
use crate::{Part, Reason};
use branch_rules::{PriceSet, TooHeavy};
use carp_base::{Fail, Memory};
use plan_model::{JudgeRoom, Verdict, judge, verdicts_are_exact};
use std::alloc::Global;

/// The first reason before the nodes why a certificate is not good, if there is one.
pub(crate) fn head_reason(alloc: Global, claim: &Claim<'_>) -> Result<Option<Reason>, Memory>
    requires { All (IsSetRead (support_in claim.now)) claim.now.sets.now }
    ensures { IfOk result (LayerSays HeadIsRight claim.now) }
{
    if let Some(reason) = count_reason(claim) {
        return Ok(Some(reason));
    }
    if let Some(reason) = plan_reason(alloc, claim)? {
        return Ok(Some(reason));
    }
    if let Some(reason) = shore_reason(claim) {
        return Ok(Some(reason));
    }
    if let Some(reason) = prices_reason(claim) {
        return Ok(Some(reason));
    }
    deadhead_reason(alloc, claim)
}

// The first number of the instance that is not as stated.
fn count_reason(claim: &Claim<'_>) -> Option<Reason>
    ensures { LayerSays CountsAgree claim.now result }
{
    let counts = claim.counts?;
    let inst = claim.inst;
    if counts.vertices != u64::from(inst.vertices()) {
        return Some(differs(1, counts.vertices, u64::from(inst.vertices())));
    }
    if counts.edges != u64::from(inst.edge_count()) {
        return Some(differs(2, counts.edges, u64::from(inst.edge_count())));
    }
    if counts.required != u64::from(inst.required()) {
        return Some(differs(3, counts.required, u64::from(inst.required())));
    }
    if counts.capacity != inst.capacity() {
        return Some(differs(4, counts.capacity, inst.capacity()));
    }
    if counts.demand != inst.total_demand() {
        return Some(differs(5, counts.demand, inst.total_demand()));
    }
    None
}

fn differs(place: u64, stated: u64, found: u64) -> Reason
    ensures { result ≡ CountsDiffer place stated found }
{
    Reason::CountsDiffer {
        place,
        stated,
        found,
    }
}

// What is wrong with the plan, or with its cost.
fn plan_reason(alloc: Global, claim: &Claim<'_>) -> Result<Option<Reason>, Memory>
    requires { (nodes : List Node) → CountsAgree claim.now.inst.now (claimed claim.now nodes) }
    ensures { IfOk result (LayerSays PlanIsRight claim.now) }
{
    verdicts_are_exact();
    let mut room = JudgeRoom::new(alloc, claim.inst)?;
    match judge(claim.inst, claim.plan, &mut room) {
        Verdict::Lawful { cost } => Ok(cost_reason(claim, cost)),
        verdict => Ok(Some(Reason::PlanUnlawful(verdict))),
    }
}

// That a lawful plan of this cost costs another sum than is stated.
fn cost_reason(claim: &Claim<'_>, found: u128) -> Option<Reason>
    requires lawful { (nodes : List Node) → PlanIsLawful claim.now.inst.now (claimed claim.now nodes) }
    requires cost { found ≡ plan_cost claim.now.inst.now claim.now.plan.now }
    ensures { LayerSays PlanIsRight claim.now result }
{
    let stated = claim.cost;
    if u128::from(stated) != found {
        return Some(Reason::CostDiffers { stated, found });
    }
    None
}

// The first shore that does not belong to the instance.
fn shore_reason(claim: &Claim<'_>) -> Option<Reason>
    requires { (nodes : List Node) → PlanIsRight claim.now.inst.now (claimed claim.now nodes) }
    ensures { LayerSays ShoresAreRight claim.now result }
{
    for number in 1..claim.shores.len() + 1 {
        if !claim.shores.shore(number).belongs(claim.inst) {
            return Some(Reason::Misfit(Part::Shore(u64::from(number))));
        }
    }
    None
}

// The first price set that does not have one price for each required edge.
fn prices_reason(claim: &Claim<'_>) -> Option<Reason>
    requires { (nodes : List Node) → ShoresAreRight claim.now.inst.now (claimed claim.now nodes) }
    ensures { LayerSays PricesAreRight claim.now result }
{
    let required = claim.inst.required() as usize;
    for (place, set) in claim.sets.iter().enumerate() {
        if set.services() != required {
            return Some(Reason::Misfit(Part::Prices(place as u64 + 1)));
        }
    }
    None
}

// The first price set and edge at which a price of a deadhead is negative.
fn deadhead_reason(alloc: Global, claim: &Claim<'_>) -> Result<Option<Reason>, Memory>
    requires right { (nodes : List Node) → PricesAreRight claim.now.inst.now (claimed claim.now nodes) }
    requires shores { All (IsSetRead (support_in claim.now)) claim.now.sets.now }
    ensures { IfOk result (LayerSays HeadIsRight claim.now) }
{
    for (place, set) in claim.sets.iter().enumerate() {
        if let Some(heavy) = heavy_edge(alloc, claim, set)? {
            return Ok(Some(too_large(place as u64 + 1, &heavy)));
        }
    }
    Ok(None)
}

fn too_large(set: u64, heavy: &TooHeavy) -> Reason
    ensures { result ≡ WeightTooLarge set heavy.now.edge heavy.now.price }
{
    Reason::WeightTooLarge {
        set,
        edge: heavy.edge,
        price: heavy.price,
    }
}

// The first edge at which a set has a negative price of a deadhead.
fn heavy_edge(alloc: Global, claim: &Claim<'_>, set: &PriceSet) -> Result<Option<TooHeavy>, Memory>
    requires { IsSetRead (support_in claim.now) set.now }
    ensures { IfOk result (λ found. MatchOption found (NoneTooHeavy claim.now.inst.now claim.now.shores.now set.now) (IsTooHeavy claim.now.inst.now claim.now.shores.now set.now)) }
{
    match set.edge_prices(alloc, claim.inst, claim.shores) {
        Ok(_) => Ok(None),
        Err(Fail::Refused(heavy)) => Ok(Some(heavy)),
        Err(Fail::Memory) => Err(Memory),
    }
}
