// Answers of price sets that are made tight, for the cases of `data/tight_prices`.
ghost use Rattle.std.specs.Prelude.{◌≡◌, ◌<◌, ℕ, List, length, slice_index_or, All, IfOk, IsTrue};
ghost use Rattle.carp_base.specs.Problem.{Problem};
ghost use Rattle.branch_rules.specs.Limits.{IsPriceNumber, IsShoreOf};
ghost use Rattle.cut_pool.specs.Shores.{Belongs};
ghost use Rattle.decision_chains.specs.Pairs.{ArePairsIn};

use branch_rules::{Branch, Decision, PriceSet};
use carp_base::Instance;
use cut_pool::ShorePool;
use road_network::Network;
use route_pricing::Table;
use samples::{instance_of, part, push_listed, shore_of};
use std::alloc::{AllocError, Global};
use std::test::Fail;
use tight_prices::{fits, tighten};

pub fn answer(alloc: Global, over: &str, call: &str, input: &str) -> Result<String, Fail> {
    let inst = instance_of(alloc, over)?;
    let required = inst.required();
    if required != 2 {
        return Err("two required edges")?;
    }
    let apart = match call {
        "tight" => false,
        "apart" => true,
        _ => return Err("no such call")?,
    };
    let branch = decided(alloc, apart)?;
    let start = set_of(alloc, part(input, 0))?;
    tight(alloc, &inst, &branch, &start, part(input, 1))
}

// No decision, or that the first two required edges are no neighbours.
fn decided(alloc: Global, apart: bool) -> Result<Branch, Fail>
    ensures { IfOk result (λ branch. (p : Problem) → p.required ≡ 2 → ArePairsIn p branch) }
{
    let mut branch = Branch::new(alloc);
    if !apart {
        return Ok(branch);
    }
    branch.push(Decision::No { a: 1, b: 2 })?;
    Ok(branch)
}

fn price(number: i32) -> i64
    ensures { IsPriceNumber result }
{
    i64::from(number)
}

// The set of two prices, without weights.
fn set_of(alloc: Global, prices: &str) -> Result<PriceSet, Fail>
    ensures { IfOk result (λ set. (p : Problem) (pool : List (List ℕ)) → All (λ w. IsShoreOf p pool w.shore) set.weights) }
{
    let (first, second) = prices.split_once(' ').unwrap_or(("", ""));
    let (first, second) = (price(first.parse::<i32>()?), price(second.parse::<i32>()?));
    let set = PriceSet::new(alloc, 1, &[first, second], &[])?;
    Ok(set)
}

// The pool of the shores of a text.
fn pool_of(alloc: Global, text: &str) -> Result<ShorePool, Fail> {
    let mut pool = ShorePool::new(alloc);
    for vertices in text.split(',') {
        if !vertices.is_empty() {
            let shore = shore_of(alloc, vertices)?;
            pool.add(shore)?;
        }
    }
    Ok(pool)
}

// Whether the shore at a place belongs to the instance.
fn belongs_at(inst: &Instance, pool: &ShorePool, place: u32) -> bool
    requires place { place < length pool.now }
    requires few { place < 2000 }
    ensures { IsTrue result → (d : List ℕ) → Belongs inst.now (slice_index_or pool.now place d) }
{
    pool.shore(place + 1).belongs(inst)
}

// Whether all shores belong to the instance.
fn all_belong(inst: &Instance, pool: &ShorePool) -> bool
    ensures { IsTrue result → All (Belongs inst.now) pool.now }
{
    for place in 0..pool.len() {
        if !belongs_at(inst, pool, place) {
            return false;
        }
    }
    true
}

// The set, tightened over the shores of a text.
fn tight(
    alloc: Global,
    inst: &Instance,
    branch: &Branch,
    start: &PriceSet,
    shores: &str,
) -> Result<String, Fail>
    requires pairs { ArePairsIn inst.now branch.now }
    requires shores { (pool : List (List ℕ)) → All (λ w. IsShoreOf inst.now pool w.shore) start.now.weights }
{
    let pool = pool_of(alloc, shores)?;
    if !all_belong(inst, &pool) || start.services() != inst.required() as usize {
        return Err("shores and prices of the instance")?;
    }
    let set = tightened(alloc, inst, &pool, branch, start)?;
    Ok(set_text(alloc, &set)?)
}

fn tightened(
    alloc: Global,
    inst: &Instance,
    pool: &ShorePool,
    branch: &Branch,
    start: &PriceSet,
) -> Result<PriceSet, Fail>
    requires pairs { ArePairsIn inst.now branch.now }
    requires belong { All (Belongs inst.now) pool.now }
    requires shores { All (λ w. IsShoreOf inst.now pool.now w.shore) start.now.weights }
    requires one_each { length start.now.services ≡ inst.now.required }
{
    let net = Network::new(alloc, inst)?;
    let mut table = Table::new(alloc, inst)?;
    if !fits(alloc, inst, &net, &mut table, pool, branch, start)? {
        return Err("the set does not fit")?;
    }
    let known = pool.len();
    let set = tighten(alloc, inst, &net, &mut table, pool, branch, start, known)?;
    Ok(set)
}

// The prices of a set, and its weights.
fn set_text(alloc: Global, set: &PriceSet) -> Result<String, AllocError> {
    let mut text = String::new(alloc);
    for e in 1..set.services() as u32 + 1 {
        push_listed(&mut text, " ", &set.service(e))?;
    }
    for weight in set.shore_weights() {
        let (weight, shore) = (weight.weight, weight.shore);
        push_listed(&mut text, ", ", &format_args!("{weight} on {shore}"))?;
    }
    Ok(text)
}
