// How the tours that a point leaves least serve and cross.
ghost use Rattle.std.specs.Prelude.{◌≡◌, ◌≤◌};
ghost use Rattle.shore_search.specs.Shortfall.{unit};
ghost use Rattle.carp_base.specs.Problem.{IsRequired};
ghost use Rattle.route_pricing.specs.Values.{IsRate};
ghost use Rattle.price_points.specs.Services.{IsFilledOn};

use carp_base::{Instance, Memory};
use deadhead_paths::Distances;
use price_points::{Cover, PARTS, best_tour, load_of, tour_over};
use route_pricing::{Rate, Table};
use std::alloc::Global;

/// What the least tours serve and cross: the one through each edge counts by the edge's part of a vehicle, and what is
/// left of the demands is carried by a tour of the least rate.
pub(crate) fn cover_of(
    alloc: Global,
    inst: &Instance,
    table: &Table,
    dist: &Distances,
    rate: Rate,
) -> Result<Cover, Memory>
    requires filled { IsFilledOn inst.now table.now }
    requires dist { dist.now.problem ≡ inst.now }
    requires rate { IsRate rate }
{
    let mut cover = Cover::new(alloc, inst)?;
    let mut left: u64 = 0;
    for e in 1..inst.required() + 1 {
        let room = add_tour_over(alloc, inst, table, dist, e, rate, &mut cover)?;
        left = left.saturating_add(room);
    }
    if let Some(tour) = best_tour(alloc, inst, table)? {
        let parts = left / load_of(inst, &tour).max(1);
        cover.add_tour(alloc, inst, dist, &tour, parts.min(1 << 40) as i64)?;
    }
    Ok(cover)
}

// Adds the least tour through an edge, and answers the parts that it leaves of a vehicle's capacity.
fn add_tour_over(
    alloc: Global,
    inst: &Instance,
    table: &Table,
    dist: &Distances,
    e: u32,
    rate: Rate,
    cover: &mut Cover,
) -> Result<u64, Memory>
    requires filled { IsFilledOn inst.now table.now }
    requires dist { dist.now.problem ≡ inst.now }
    requires edge { IsRequired inst.now e }
    requires rate { IsRate rate }
{
    let tour = tour_over(alloc, inst, table, e, rate)?;
    let parts = parts_of(inst, e);
    cover.add_tour(alloc, inst, dist, &tour, parts as i64)?;
    let room = inst.capacity().saturating_sub(load_of(inst, &tour));
    Ok(parts.saturating_mul(room))
}

// The part of a vehicle's capacity that an edge takes.
fn parts_of(inst: &Instance, e: u32) -> u64
    requires { IsRequired inst.now e }
    ensures { result ≤ unit }
{
    inst.validity();
    let whole = (PARTS as u64).saturating_mul(inst.edge(e).demand);
    (whole / inst.capacity()).min(PARTS as u64)
}
