// Tours that a filled table offers, with what they are worth.
ghost use Rattle.std.specs.Prelude.{◌≡◌};
ghost use Rattle.route_pricing.specs.Values.{IsRate};
ghost use Rattle.price_points.specs.Services.{AreServices, IsFilledOn};

use crate::tours::{Count, Tour};
use carp_base::{Instance, Memory, Task};
use deadhead_paths::Distances;
use price_points::{best_tour, least_tour, number_at, service_cost, tour_over};
use route_pricing::{Rate, Table};
use std::alloc::Global;

/// A tour and what it is worth.
#[derive(Drop)]
pub(crate) struct Offer {
    pub(crate) tour: Tour,
    pub(crate) value: i128,
}

/// What tours are priced by: the instance, and prices as the table was filled with.
#[derive(Clone, Copy)]
pub(crate) struct Pricing<'a> {
    pub(crate) inst: &'a Instance,
    pub(crate) dist: &'a Distances,
    pub(crate) prices: &'a [i64],
    pub(crate) deadheads: &'a [u64],
    pub(crate) surcharges: &'a [i64],
}

/// The tour of the least value, that of the least rate, and the least one through each required edge, those of the
/// least value first.
pub(crate) fn offers_of(
    alloc: Global,
    pricing: &Pricing<'_>,
    table: &Table,
    rate: Rate,
) -> Result<Vec<Offer>, Memory>
    requires filled { IsFilledOn pricing.now.inst.now table.now }
    requires dist { pricing.now.dist.now.problem ≡ pricing.now.inst.now }
    requires rate { IsRate rate }
{
    let inst = pricing.inst;
    let mut offers = Vec::new(alloc);
    if let Some(tasks) = least_tour(alloc, inst, table)? {
        offers.push(offer_of(alloc, pricing, tasks)?)?;
    }
    if let Some(tasks) = best_tour(alloc, inst, table)? {
        offers.push(offer_of(alloc, pricing, tasks)?)?;
    }
    add_tours_through(alloc, pricing, table, rate, &mut offers)?;
    offers.sort_unstable_by_key(|offer| offer.value);
    Ok(offers)
}

// Adds the least tour through each required edge.
fn add_tours_through(
    alloc: Global,
    pricing: &Pricing<'_>,
    table: &Table,
    rate: Rate,
    offers: &mut Vec<Offer>,
) -> Result<(), Memory>
    requires filled { IsFilledOn pricing.now.inst.now table.now }
    requires dist { pricing.now.dist.now.problem ≡ pricing.now.inst.now }
    requires rate { IsRate rate }
{
    let inst = pricing.inst;
    inst.validity();
    for place in 0..inst.required() {
        let tasks = tour_over(alloc, inst, table, place + 1, rate)?;
        offers.push(offer_of(alloc, pricing, tasks)?)?;
    }
    Ok(())
}

// The tour of these tasks with its value.
fn offer_of(alloc: Global, pricing: &Pricing<'_>, tasks: Vec<Task>) -> Result<Offer, Memory>
    requires dist { pricing.now.dist.now.problem ≡ pricing.now.inst.now }
    requires tasks { AreServices pricing.now.inst.now tasks.items }
{
    let tour = Tour::new(alloc, pricing.inst, pricing.dist, tasks)?;
    let services = services_value(pricing.inst, pricing.prices, &tour.services);
    let deadheads = deadheads_value(pricing.deadheads, &tour.deadheads);
    let bonds = bonds_value(pricing.inst.required(), pricing.surcharges, &tour.tasks);
    let value = services.saturating_add(deadheads).saturating_add(bonds);
    Ok(Offer { tour, value })
}

// The costs of the services, less their prices.
fn services_value(inst: &Instance, prices: &[i64], services: &[Count]) -> i128 {
    let mut sum: i128 = 0;
    for count in services {
        let adds = service_value(inst, prices, count.place);
        sum = sum.saturating_add(adds.saturating_mul(i128::from(count.times)));
    }
    sum
}

// The cost of a service, less its price.
fn service_value(inst: &Instance, prices: &[i64], place: usize) -> i128 {
    if place < inst.required() as usize {
        service_cost(inst, place as u32 + 1).saturating_sub(i128::from(number_at(prices, place)))
    } else {
        0
    }
}

fn deadheads_value(prices: &[u64], deadheads: &[Count]) -> i128 {
    let mut sum: i128 = 0;
    for count in deadheads {
        if let Some(price) = prices.get(count.place) {
            sum = sum.saturating_add(i128::from(*price).saturating_mul(i128::from(count.times)));
        }
    }
    sum
}

// The surcharges of the tasks that follow each other.
fn bonds_value(required: u32, surcharges: &[i64], tasks: &[Task]) -> i128 {
    let mut sum: i128 = 0;
    for place in 1..tasks.len() {
        let surcharge = surcharge_at(
            required as usize,
            surcharges,
            tasks[place - 1].edge as usize,
            tasks[place].edge as usize,
        );
        sum = sum.saturating_add(i128::from(surcharge));
    }
    sum
}

fn surcharge_at(required: usize, surcharges: &[i64], e: usize, f: usize) -> i64 {
    let row = e.saturating_sub(1).saturating_mul(required);
    number_at(surcharges, row.saturating_add(f.saturating_sub(1)))
}
