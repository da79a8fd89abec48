// Whether the tours of a price set pay, by a fill of the table.
ghost use Rattle.std.specs.Prelude.{◌≡◌, ◌↔◌, All, IfOk, IsTrue, length};
ghost use Rattle.cut_pool.specs.Pools.{IsShoreNumber};
ghost use Rattle.branch_rules.specs.Refusals.{NoneTooHeavy};
ghost use Rattle.route_pricing.specs.Tables.{IsRoom};
ghost use Rattle.tight_prices.specs.Fillings.{IsFilledFor};
ghost use Rattle.tight_prices.specs.Probes.{IsOutcome, IsSetting, ProbeSays, ground_of};

use branch_rules::{Branch, PriceSet, surcharge_table, surcharges_are_bond_weights};
use carp_base::{Allowed, Fail, Instance, Memory};
use cut_pool::ShorePool;
use deadhead_paths::distances;
use road_network::Network;
use route_pricing::Table;
use std::alloc::Global;

/// What price sets are tested against: an instance with its network, a pool of shores, a branch, and the pairs that it
/// does not exclude.
#[derive(Clone, Copy)]
pub(crate) struct Setting<'a> {
    pub(crate) inst: &'a Instance,
    pub(crate) net: &'a Network,
    pub(crate) pool: &'a ShorePool,
    pub(crate) branch: &'a Branch,
    pub(crate) allowed: &'a Allowed,
}

/// What a test finds.
#[derive(Clone, Copy, Debug, PartialEq, Eq, Drop)]
pub(crate) enum Probe {
    /// No deadhead price is negative, and each tour pays.
    Pays,
    /// The least value of a tour, which is negative.
    Lacks(i128),
    /// A deadhead price is negative.
    TooHeavy,
}

/// Tests a set. It takes one fill of the table, or none if a deadhead price is negative.
pub(crate) fn try_set(
    alloc: Global,
    setting: &Setting<'_>,
    table: &mut Table,
    set: &PriceSet,
) -> Result<Probe, Memory>
    requires setting { IsSetting setting.now }
    requires room { IsRoom setting.now.inst.now table.old }
    requires shores { All (λ w. IsShoreNumber setting.now.pool.now w.shore) set.now.weights }
    requires one_each { length set.now.services ≡ setting.now.inst.now.required }
    ensures room { IsRoom setting.now.inst.now table.new }
    ensures says { IfOk result (ProbeSays (ground_of setting.now) set.now table.new) }
{
    surcharges_are_bond_weights();
    if fill(alloc, setting, table, set)? {
        Ok(outcome(table.least()))
    } else {
        Ok(Probe::TooHeavy)
    }
}

/// Fills the table for a set. It answers `false` exactly if a deadhead price is negative, and then the table stays as
/// it was.
pub(crate) fn fill(
    alloc: Global,
    setting: &Setting<'_>,
    table: &mut Table,
    set: &PriceSet,
) -> Result<bool, Memory>
    requires setting { IsSetting setting.now }
    requires room { IsRoom setting.now.inst.now table.old }
    requires shores { All (λ w. IsShoreNumber setting.now.pool.now w.shore) set.now.weights }
    requires one_each { length set.now.services ≡ setting.now.inst.now.required }
    ensures room { IsRoom setting.now.inst.now table.new }
    ensures light { IfOk result (λ light. IsTrue light ↔ NoneTooHeavy setting.now.inst.now setting.now.pool.now set.now) }
    ensures filled { IfOk result (λ light. IsTrue light → IsFilledFor setting.now.inst.now setting.now.pool.now setting.now.branch.now set.now table.new) }
{
    surcharges_are_bond_weights();
    let prices = match set.edge_prices(alloc, setting.inst, setting.pool) {
        Ok(prices) => prices,
        Err(Fail::Memory) => return Err(Memory),
        Err(Fail::Refused(_)) => return Ok(false),
    };
    let dist = distances(alloc, setting.inst, setting.net, &prices)?;
    let services = service_prices(alloc, set)?;
    let surcharges = surcharge_table(alloc, setting.inst.required(), set.groups())?;
    table.fill(
        setting.inst,
        &dist,
        set.unit(),
        &services,
        setting.allowed,
        &surcharges,
    );
    Ok(true)
}

// The least value of a tour as an outcome.
fn outcome(least: Option<i128>) -> Probe
    ensures { IsOutcome least result }
{
    match least {
        Some(value) if value < 0 => Probe::Lacks(value),
        _ => Probe::Pays,
    }
}

/// The prices of services of a set.
pub(crate) fn service_prices(alloc: Global, set: &PriceSet) -> Result<Vec<i64>, Memory>
    ensures value { IfOk result (λ prices. prices.items ≡ set.now.services) }
{
    let count = set.services() as u32;
    let mut prices = Vec::with_capacity(alloc, count as usize)?;
    for edge in 1..count + 1 {
        prices.push(set.service(edge))?;
    }
    Ok(prices)
}
