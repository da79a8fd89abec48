// Answers of the best of the floors and of raised sets, for the cases of `data/dual_master`.
ghost use Rattle.std.specs.Prelude.{◌≡◌, [], All, IfOk, OnOk, length};
ghost use Rattle.branch_rules.specs.Laws.{FitsBranch};
ghost use Rattle.branch_rules.specs.Limits.{IsShoreOf};
ghost use Rattle.carp_base.specs.Problem.{Problem};
ghost use Rattle.cut_pool.specs.Shores.{Belongs};
ghost use Rattle.decision_chains.specs.Pairs.{ArePairsIn};
ghost use Rattle.dual_master.specs.Floors.{FitsAlways};
ghost use Rattle.route_pricing.specs.Tables.{IsRoom};

use branch_rules::{Branch, PriceSet};
use carp_base::Instance;
use cut_pool::ShorePool;
use dual_master::{floors, raise};
use road_network::Network;
use route_pricing::Table;
use samples::{instance_of, push_listed, vertices};
use std::alloc::{AllocError, Global};
use std::test::Fail;
use task_tours::cost_distances;
use tight_prices::fits;

pub fn answer(alloc: Global, over: &str, call: &str, input: &str) -> Result<String, Fail> {
    let inst = instance_of(alloc, over)?;
    match call {
        "floor" => floor(alloc, &inst),
        "raised" => raised(alloc, &inst, input.parse::<u32>()?),
        "from" => from_price(alloc, &inst, input.parse::<i32>()?),
        _ => Err("no such call")?,
    }
}

// A pool without shores.
fn no_shores(alloc: Global) -> ShorePool
    ensures { result ≡ [] }
{
    ShorePool::new(alloc)
}

// A branch without decisions.
fn no_decisions(alloc: Global) -> Branch
    ensures none { result ≡ [] }
    ensures pairs { (p : Problem) → ArePairsIn p result }
{
    Branch::new(alloc)
}

// The best set of the floors.
fn best(
    alloc: Global,
    inst: &Instance,
    net: &Network,
    table: &mut Table,
    pool: &mut ShorePool,
) -> Result<PriceSet, Fail>
    requires net { net.now ≡ inst.now }
    requires room { IsRoom inst.now table.old }
    requires empty { pool.old ≡ [] }
    ensures fits { IfOk result (FitsAlways inst.now pool.new) }
    ensures shores { IfOk result (λ set. All (λ w. IsShoreOf inst.now pool.new w.shore) set.weights) }
    ensures belong { OnOk result (All (Belongs inst.now) pool.new) }
    ensures room { OnOk result (IsRoom inst.now table.new) }
{
    let dist = cost_distances(alloc, inst)?;
    let set = floors(alloc, inst, net, &dist, table, pool)?;
    Ok(set)
}

// The value of a set without decisions, in units of its denominator.
fn value_text(
    alloc: Global,
    inst: &Instance,
    pool: &ShorePool,
    set: &PriceSet,
) -> Result<String, Fail>
    requires { All (λ w. IsShoreOf inst.now pool.now w.shore) set.now.weights }
{
    let value = Branch::new(alloc).value_at(inst, pool, set)?;
    let unit = i128::from(set.unit());
    let (whole, rest) = (value / unit, value % unit);
    if rest == 0 {
        return Ok(format!(in alloc; "{whole}")?);
    }
    Ok(format!(in alloc; "{value} / {unit}")?)
}

// The value of the best set of the floors, and the shores of the pool that is left.
fn floor(alloc: Global, inst: &Instance) -> Result<String, Fail> {
    let net = Network::new(alloc, inst)?;
    let mut table = Table::new(alloc, inst)?;
    floor_over(alloc, inst, &net, &mut table)
}

fn floor_over(
    alloc: Global,
    inst: &Instance,
    net: &Network,
    table: &mut Table,
) -> Result<String, Fail>
    requires net { net.now ≡ inst.now }
    requires room { IsRoom inst.now table.old }
{
    let mut pool = no_shores(alloc);
    let set = best(alloc, inst, net, table, &mut pool)?;
    floor_text(alloc, inst, &pool, &set)
}

fn floor_text(
    alloc: Global,
    inst: &Instance,
    pool: &ShorePool,
    set: &PriceSet,
) -> Result<String, Fail>
    requires { All (λ w. IsShoreOf inst.now pool.now w.shore) set.now.weights }
{
    let value = value_text(alloc, inst, pool, set)?;
    let held = pool_text(alloc, pool)?;
    Ok(format!(in alloc; "{value}; {held}")?)
}

fn pool_text(alloc: Global, pool: &ShorePool) -> Result<String, AllocError> {
    let mut text = String::new(alloc);
    for place in 0..pool.len() {
        let shore = vertices(alloc, pool.shore(place + 1))?;
        push_listed(&mut text, ", ", &shore)?;
    }
    Ok(text)
}

// The value of that set once it is raised.
fn raised(alloc: Global, inst: &Instance, rounds: u32) -> Result<String, Fail> {
    let net = Network::new(alloc, inst)?;
    let mut table = Table::new(alloc, inst)?;
    let mut pool = no_shores(alloc);
    let start = best(alloc, inst, &net, &mut table, &mut pool)?;
    let set = raised_set(alloc, inst, &net, &mut table, &mut pool, &start, rounds)?;
    value_text(alloc, inst, &pool, &set)
}

fn raised_set(
    alloc: Global,
    inst: &Instance,
    net: &Network,
    table: &mut Table,
    pool: &mut ShorePool,
    start: &PriceSet,
    rounds: u32,
) -> Result<PriceSet, Fail>
    requires net { net.now ≡ inst.now }
    requires room { IsRoom inst.now table.old }
    requires belong { All (Belongs inst.now) pool.old }
    requires shores { All (λ w. IsShoreOf inst.now pool.old w.shore) start.now.weights }
    requires fits { FitsBranch inst.now pool.old [] start.now }
    ensures { IfOk result (λ set. All (λ w. IsShoreOf inst.now pool.new w.shore) set.weights) }
{
    let root = no_decisions(alloc);
    let set = raise(alloc, inst, net, table, pool, &root, start, rounds)?;
    Ok(set)
}

// The value of a set of one price in units of 1, once it is raised over no shores and by no rounds.
fn from_price(alloc: Global, inst: &Instance, price: i32) -> Result<String, Fail> {
    if inst.required() != 1 {
        return Err("one required edge")?;
    }
    let start = one_price(alloc, price)?;
    raised_from(alloc, inst, &start)
}

fn one_price(alloc: Global, price: i32) -> Result<PriceSet, Fail>
    ensures one { IfOk result (λ set. length set.services ≡ 1) }
    ensures none { IfOk result (λ set. set.weights ≡ []) }
{
    let set = PriceSet::new(alloc, 1, &[i64::from(price)], &[])?;
    Ok(set)
}

fn raised_from(alloc: Global, inst: &Instance, start: &PriceSet) -> Result<String, Fail>
    requires one_each { length start.now.services ≡ inst.now.required }
    requires none { start.now.weights ≡ [] }
{
    let net = Network::new(alloc, inst)?;
    let mut table = Table::new(alloc, inst)?;
    raised_over(alloc, inst, &net, &mut table, start)
}

fn raised_over(
    alloc: Global,
    inst: &Instance,
    net: &Network,
    table: &mut Table,
    start: &PriceSet,
) -> Result<String, Fail>
    requires net { net.now ≡ inst.now }
    requires room { IsRoom inst.now table.old }
    requires one_each { length start.now.services ≡ inst.now.required }
    requires none { start.now.weights ≡ [] }
{
    let mut pool = no_shores(alloc);
    let root = no_decisions(alloc);
    if !fits(alloc, inst, net, table, &pool, &root, start)? {
        return Err("the set does not fit")?;
    }
    let set = raised_set(alloc, inst, net, table, &mut pool, start, 0)?;
    value_text(alloc, inst, &pool, &set)
}
