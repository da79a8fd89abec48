// The passes over all numbers of a set.
ghost use Rattle.std.specs.Prelude.{◌≡◌, ℕ, ◌≤◌, ◌≤ℤ◌, All, IfOk, IsTrue, length};
ghost use Rattle.carp_base.specs.Problem.{IsRequired};
ghost use Rattle.cut_pool.specs.Pools.{IsShoreNumber};
ghost use Rattle.cut_pool.specs.Shores.{Belongs};
ghost use Rattle.branch_rules.specs.Decisions.{rules_of};
ghost use Rattle.branch_rules.specs.Laws.{FitsBranch};
ghost use Rattle.branch_rules.specs.Limits.{IsShoreOf};
ghost use Rattle.branch_rules.specs.Prices.{value_of};
ghost use Rattle.decision_chains.specs.Pairs.{ArePairsIn};
ghost use Rattle.route_pricing.specs.Tables.{IsRoom};
ghost use Rattle.tight_prices.specs.Fillings.{IsFilledFor};
ghost use Rattle.tight_prices.specs.Probes.{IsSetting, ground_of};
ghost use Rattle.tight_prices.specs.Places.{IsOnShore, Rises};
ghost use Rattle.tight_prices.specs.Searches.{ArePriced, HaveSameWeights, IsFitting, IsKnownSingle, IsShoreTight, IsThisSingle};
ghost use Rattle.tight_prices.specs.Tight.{AreKept, IsNeededSingle, IsNoHigher, IsPriceTight, IsTight, IsWeightTight};
ghost use Rattle.tight_prices.specs.declared.place.Place.TheVariants.{Shore};

use crate::across::least_across;
use crate::place::{Place, copy, room};
use crate::probe::{Setting, fill};
use crate::search::{Search, highest, left};
use branch_rules::{Branch, PriceSet};
use carp_base::{Fail, Instance, Memory};
use cut_pool::{ShorePool, need};
use deadhead_paths::least_prices_are_there;
use road_network::Network;
use route_pricing::Table;
use std::alloc::Global;

/// A set that fits, with its deadhead prices.
#[derive(Drop)]
pub(crate) struct PricedSet {
    set: PriceSet,
    deadheads: Vec<u64>,
}

/// Raises the numbers of a price set that fits under a branch until none can be raised. First come, in the order of the
/// pool, the weights on those of its first `known` shores that are of one vertex over which some deadhead is needed
/// (`cut_pool::need`). Then come, in the order of the edges, the prices of services. Each is raised as far as it goes,
/// or to 10^15. No number becomes less, so the value does not either. The denominator and the weights on all other
/// shores stay.
///
/// It asks for the network of the instance, a table that was made for it, a branch whose pairs are of required edges,
/// and a pool whose shores belong to the instance. The only error is want of memory. Afterwards the table is filled for
/// the set that is given.
///
/// A price that cannot be raised costs no fill of the table, and a weight mostly one. One that can be raised costs a
/// fill for each try, mostly one to three of a price and up to ten of a weight, and some 70 at most. A price whose last
/// try does not fit costs one more, and one fill stands between weights and prices. With E edges, m required edges, d
/// decisions, k weights and a capacity of Q, the relation of pairs takes time in proportion to m * m + d, each shore
/// that is looked at to E, and each price to Q. Each try takes time in proportion to E * k and to the distances by its
/// deadhead prices, besides its fill.
pub fn tighten(
    alloc: Global,
    inst: &Instance,
    net: &Network,
    table: &mut Table,
    pool: &ShorePool,
    branch: &Branch,
    start: &PriceSet,
    known: u32,
) -> Result<PriceSet, Memory>
    requires net { net.now ≡ inst.now }
    requires room { IsRoom inst.now table.old }
    requires pairs { ArePairsIn inst.now branch.now }
    requires belong { All (Belongs inst.now) pool.now }
    requires shores { All (λ w. IsShoreOf inst.now pool.now w.shore) start.now.weights }
    requires fits { FitsBranch inst.now pool.now branch.now start.now }
    requires known { known ≤ length pool.now }
    ensures tight { IfOk result (IsTight inst.now pool.now known branch.now) }
    ensures no_lower { IfOk result (IsNoHigher start.now) }
    ensures others { IfOk result (AreKept (λ shore. (shore ≤ known) × IsNeededSingle inst.now pool.now shore) start.now) }
    ensures value { IfOk result (λ set. value_of (rules_of inst.now pool.now branch.now) start.now ≤ℤ value_of (rules_of inst.now pool.now branch.now) set) }
    ensures shores { IfOk result (λ set. All (λ w. IsShoreOf inst.now pool.now w.shore) set.weights) }
    ensures filled { IfOk result (λ set. IsFilledFor inst.now pool.now branch.now set table.new) }
    ensures room { IsRoom inst.now table.new }
{
    least_prices_are_there();
    // What reads of the instance and of the set say is needed: that both are within their limits.
    inst.validity();
    let _ = start.unit();
    let allowed = branch.allowed(alloc, inst)?;
    let setting = Setting {
        inst,
        net,
        pool,
        branch,
        allowed: &allowed,
    };
    let set = copy(alloc, start)?;
    let heavier = tighten_weights(alloc, &setting, table, set, known)?;
    tighten_prices(alloc, &setting, table, heavier)
}

// Raises the weights on the needed shores of one vertex.
fn tighten_weights(
    alloc: Global,
    setting: &Setting<'_>,
    table: &mut Table,
    set: PriceSet,
    known: u32,
) -> Result<PriceSet, Memory>
    requires setting { IsSetting setting.now }
    requires room { IsRoom setting.now.inst.now table.old }
    requires belong { All (Belongs setting.now.inst.now) setting.now.pool.now }
    requires fitting { IsFitting (ground_of setting.now) set }
    requires known { known ≤ length setting.now.pool.now }
    ensures room { IsRoom setting.now.inst.now table.new }
    ensures fitting { IfOk result (IsFitting (ground_of setting.now)) }
    ensures rises { IfOk result (Rises setting.now.inst.now setting.now.pool.now setting.now.branch.now set) }
    ensures kept { IfOk result (AreKept (IsKnownSingle (ground_of setting.now) known) set) }
    ensures tight { IfOk result (λ heavier. (shore : ℕ) → shore ≤ known → IsShoreTight (ground_of setting.now) heavier shore) }
{
    least_prices_are_there();
    let _ = setting.pool.len();
    let mut priced = priced_set(alloc, setting, set)?;
    for shore in 1..known + 1 {
        priced = tighten_shore(alloc, setting, table, priced, shore)?;
    }
    Ok(priced.set)
}

// A set with its deadhead prices.
fn priced_set(alloc: Global, setting: &Setting<'_>, set: PriceSet) -> Result<PricedSet, Memory>
    requires fitting { IsFitting (ground_of setting.now) set }
    ensures set { IfOk result (λ priced. priced.set ≡ set) }
    ensures priced { IfOk result (ArePriced (ground_of setting.now)) }
{
    match set.edge_prices(alloc, setting.inst, setting.pool) {
        Ok(deadheads) => Ok(PricedSet { set, deadheads }),
        Err(Fail::Memory) => Err(Memory),
        Err(Fail::Refused(_)) => unreachable!(),
    }
}

// Raises the weight on a shore, where it is of one vertex over which some deadhead is needed.
fn tighten_shore(
    alloc: Global,
    setting: &Setting<'_>,
    table: &mut Table,
    priced: PricedSet,
    shore: u32,
) -> Result<PricedSet, Memory>
    requires setting { IsSetting setting.now }
    requires room { IsRoom setting.now.inst.now table.old }
    requires belong { All (Belongs setting.now.inst.now) setting.now.pool.now }
    requires number { IsShoreNumber setting.now.pool.now shore }
    requires priced { ArePriced (ground_of setting.now) priced }
    ensures room { IsRoom setting.now.inst.now table.new }
    ensures priced { IfOk result (ArePriced (ground_of setting.now)) }
    ensures rises { IfOk result (λ next. Rises setting.now.inst.now setting.now.pool.now setting.now.branch.now priced.set next.set) }
    ensures kept { IfOk result (λ next. AreKept (IsThisSingle (ground_of setting.now) shore) priced.set next.set) }
    ensures tight { IfOk result (λ next. IsShoreTight (ground_of setting.now) next.set shore) }
{
    if is_needed_single(setting.inst, setting.pool, shore) {
        raise_weight(alloc, setting, table, priced, shore)
    } else {
        Ok(priced)
    }
}

// Whether a shore is of one vertex over which some deadhead is needed.
fn is_needed_single(inst: &Instance, pool: &ShorePool, number: u32) -> bool
    requires belong { All (Belongs inst.now) pool.now }
    requires number { IsShoreNumber pool.now number }
    ensures yes { IsNeededSingle inst.now pool.now number → IsTrue result }
    ensures only { IsTrue result → IsNeededSingle inst.now pool.now number }
{
    let shore = pool.shore(number);
    if shore.len() != 1 {
        return false;
    }
    need(inst, shore) > 0
}

// Raises the weight on a shore as far as it goes.
fn raise_weight(
    alloc: Global,
    setting: &Setting<'_>,
    table: &mut Table,
    priced: PricedSet,
    shore: u32,
) -> Result<PricedSet, Memory>
    requires setting { IsSetting setting.now }
    requires room { IsRoom setting.now.inst.now table.old }
    requires shore { IsShoreOf setting.now.inst.now setting.now.pool.now shore }
    requires priced { ArePriced (ground_of setting.now) priced }
    ensures room { IsRoom setting.now.inst.now table.new }
    ensures priced { IfOk result (ArePriced (ground_of setting.now)) }
    ensures rises { IfOk result (λ next. Rises setting.now.inst.now setting.now.pool.now setting.now.branch.now priced.set next.set) }
    ensures kept { IfOk result (λ next. AreKept (IsOnShore (Shore shore)) priced.set next.set) }
    ensures tight { IfOk result (λ next. IsWeightTight setting.now.inst.now setting.now.pool.now setting.now.branch.now next.set shore) }
{
    let place = Place::Shore(shore);
    let below = room(&priced.set, place);
    let most = least_across(
        setting.inst,
        setting.pool.shore(shore),
        &priced.deadheads,
        below,
    );
    if most == 0 {
        return Ok(priced);
    }
    let start = Search {
        set: priced.set,
        most,
        filled: false,
        guess: 1,
        tries: 0,
    };
    let found = highest(alloc, setting, table, start, place)?;
    priced_set(alloc, setting, found.set)
}

// Raises the prices of services.
fn tighten_prices(
    alloc: Global,
    setting: &Setting<'_>,
    table: &mut Table,
    set: PriceSet,
) -> Result<PriceSet, Memory>
    requires setting { IsSetting setting.now }
    requires room { IsRoom setting.now.inst.now table.old }
    requires fitting { IsFitting (ground_of setting.now) set }
    ensures room { IsRoom setting.now.inst.now table.new }
    ensures fitting { IfOk result (IsFitting (ground_of setting.now)) }
    ensures rises { IfOk result (Rises setting.now.inst.now setting.now.pool.now setting.now.branch.now set) }
    ensures weights { IfOk result (HaveSameWeights set) }
    ensures filled { IfOk result (λ higher. IsFilledFor setting.now.inst.now setting.now.pool.now setting.now.branch.now higher table.new) }
    ensures tight { IfOk result (λ higher. (e : ℕ) → IsRequired setting.now.inst.now e → IsPriceTight setting.now.inst.now setting.now.pool.now setting.now.branch.now higher e) }
{
    least_prices_are_there();
    fill(alloc, setting, table, &set)?;
    let mut higher = set;
    for e in 1..setting.inst.required() + 1 {
        higher = raise_price(alloc, setting, table, higher, e)?;
    }
    Ok(higher)
}

// Raises the price of an edge as far as it goes. The table is filled for the set before and after.
fn raise_price(
    alloc: Global,
    setting: &Setting<'_>,
    table: &mut Table,
    set: PriceSet,
    e: u32,
) -> Result<PriceSet, Memory>
    requires setting { IsSetting setting.now }
    requires room { IsRoom setting.now.inst.now table.old }
    requires edge { IsRequired setting.now.inst.now e }
    requires fitting { IsFitting (ground_of setting.now) set }
    requires filled { IsFilledFor setting.now.inst.now setting.now.pool.now setting.now.branch.now set table.old }
    ensures room { IsRoom setting.now.inst.now table.new }
    ensures fitting { IfOk result (IsFitting (ground_of setting.now)) }
    ensures rises { IfOk result (Rises setting.now.inst.now setting.now.pool.now setting.now.branch.now set) }
    ensures weights { IfOk result (HaveSameWeights set) }
    ensures filled { IfOk result (λ higher. IsFilledFor setting.now.inst.now setting.now.pool.now setting.now.branch.now higher table.new) }
    ensures tight { IfOk result (λ higher. IsPriceTight setting.now.inst.now setting.now.pool.now setting.now.branch.now higher e) }
{
    let place = Place::Edge(e);
    let below = room(&set, place);
    let most = left(table, place, below);
    let start = Search {
        set,
        most,
        filled: true,
        guess: most,
        tries: 0,
    };
    let found = highest(alloc, setting, table, start, place)?;
    refill(alloc, setting, table, found)
}

// Fills the table for the set that was found, where it is filled for another one.
fn refill(
    alloc: Global,
    setting: &Setting<'_>,
    table: &mut Table,
    found: Search,
) -> Result<PriceSet, Memory>
    requires setting { IsSetting setting.now }
    requires room { IsRoom setting.now.inst.now table.old }
    requires fitting { IsFitting (ground_of setting.now) found.set }
    requires filled { IsTrue found.filled → IsFilledFor setting.now.inst.now setting.now.pool.now setting.now.branch.now found.set table.old }
    ensures room { IsRoom setting.now.inst.now table.new }
    ensures set { IfOk result (λ set. set ≡ found.set) }
    ensures filled { IfOk result (λ set. IsFilledFor setting.now.inst.now setting.now.pool.now setting.now.branch.now set table.new) }
{
    if !found.filled {
        fill(alloc, setting, table, &found.set)?;
    }
    Ok(found.set)
}
