// Answers of tables of least relaxed tours, for the cases of `data/route_pricing`.
ghost use Rattle.std.specs.Prelude.{◌≡◌, length, All, IfOk, IsTrue};
ghost use Rattle.route_pricing.specs.Pricing.{IsServicePrice};
ghost use Rattle.route_pricing.specs.Tables.{IsReady, IsRoom};

use carp_base::{Allowed, Instance, Task};
use route_pricing::{Rate, Table};
use samples::{instance_of, listed, numbers32, part, push_listed, signed_numbers};
use std::alloc::{AllocError, Global};
use std::test::Fail;
use task_tours::cost_distances;

const LIMIT: i64 = 1_000_000_000_000_000;

// By itself the value, not a rate.
const NOTHING: Rate = Rate { value: 0, load: 1 };

pub fn answer(alloc: Global, over: &str, call: &str, input: &str) -> Result<String, Fail> {
    let inst = instance_of(alloc, over)?;
    let table = filled(alloc, &inst, part(input, 0), part(input, 1))?;
    match call {
        "least" => least(alloc, &table),
        "ratio" => ratio(alloc, &table),
        "rate" => rate(alloc, &table),
        "through" => through(alloc, &inst, &table, part(input, 2)),
        _ => Err("no such call")?,
    }
}

fn are_small(prices: &[i64]) -> bool
    ensures { IsTrue result → All IsServicePrice prices.now }
{
    prices
        .iter()
        .all(|price| -LIMIT <= *price && *price <= LIMIT)
}

// Whether there is a price for each service.
fn are_prices(inst: &Instance, prices: &[i64]) -> bool
    ensures one_each { IsTrue result → length prices.now ≡ inst.now.required }
    ensures small { IsTrue result → All IsServicePrice prices.now }
{
    prices.len() == inst.required() as usize && are_small(prices)
}

// Takes a pair out.
fn exclude(alloc: Global, inst: &Instance, allowed: &mut Allowed, pair: &str) -> Result<(), Fail>
    requires { allowed.old.size ≡ inst.now.required }
    ensures { allowed.new.size ≡ inst.now.required }
{
    let last = inst.required();
    let edges = numbers32(alloc, pair)?;
    match edges.as_slice() {
        [a, b] if 1 <= *a && *a <= last && 1 <= *b && *b <= last => allowed.exclude(*a, *b),
        [] => {}
        _ => Err("a pair of required edges")?,
    }
    Ok(())
}

// All pairs but those of a text.
fn without(alloc: Global, inst: &Instance, pairs: &str) -> Result<Allowed, Fail>
    ensures { IfOk result (λ allowed. allowed.size ≡ inst.now.required) }
{
    let mut allowed = Allowed::all(alloc, inst)?;
    for pair in pairs.split(',') {
        exclude(alloc, inst, &mut allowed, pair)?;
    }
    Ok(allowed)
}

// The table of prices of services, with the unit 1 and costs as the prices of deadheads, without some pairs.
fn filled(alloc: Global, inst: &Instance, prices: &str, pairs: &str) -> Result<Table, Fail>
    ensures room { IfOk result (IsRoom inst.now) }
    ensures ready { IfOk result IsReady }
{
    let prices = signed_numbers(alloc, prices)?;
    if !are_prices(inst, &prices) {
        return Err("a price for each service")?;
    }
    let allowed = without(alloc, inst, pairs)?;
    let dist = cost_distances(alloc, inst)?;
    let mut table = Table::new(alloc, inst)?;
    table.fill(inst, &dist, 1, &prices, &allowed, &[]);
    Ok(table)
}

// The value of a least tour.
fn least(alloc: Global, table: &Table) -> Result<String, Fail>
    requires { IsReady table.now }
{
    match table.least() {
        Some(value) => Ok(listed(alloc, &[value])?),
        None => Ok(String::from_str(alloc, "none")?),
    }
}

// The deadhead and the load of a tour of the least ratio.
fn ratio(alloc: Global, table: &Table) -> Result<String, Fail>
    requires { IsReady table.now }
{
    match table.least_ratio() {
        Some(ratio) => Ok(format!(in alloc; "{} {}", ratio.deadhead, ratio.load)?),
        None => Ok(String::from_str(alloc, "none")?),
    }
}

// The value and the load of a tour of the least rate, and its edges.
fn rate(alloc: Global, table: &Table) -> Result<String, Fail>
    requires { IsReady table.now }
{
    let tour = table.rate_tour(alloc)?;
    let (Some(rate), Some(tour)) = (table.least_rate(), tour) else {
        return Ok(String::from_str(alloc, "none")?);
    };
    let edges = edges_of(alloc, &tour)?;
    Ok(format!(in alloc; "{} {}; {edges}", rate.value, rate.load)?)
}

fn edges_of(alloc: Global, tour: &[Task]) -> Result<String, AllocError> {
    let mut text = String::new(alloc);
    for task in tour {
        push_listed(&mut text, " ", &task.edge)?;
    }
    Ok(text)
}

// The value of a least tour through an edge, and how many services it has.
fn through(alloc: Global, inst: &Instance, table: &Table, edge: &str) -> Result<String, Fail>
    requires room { IsRoom inst.now table.now }
    requires ready { IsReady table.now }
{
    let e = edge.parse::<u32>()?;
    if e < 1 || inst.required() < e {
        return Err("a required edge")?;
    }
    let value = table.through(e, NOTHING);
    let tour = table.tour_through(alloc, e, NOTHING)?;
    let services = tour.len();
    Ok(format!(in alloc; "{value}; {services}")?)
}
