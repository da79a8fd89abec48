// Tours, joined by the joins that save most.
ghost use Rattle.std.specs.Prelude.{◌≡◌, length, IfOk, OnOk};
ghost use Rattle.deadhead_paths.specs.Prices.{costs_of};
ghost use Rattle.augment_merge.specs.Merging.{AreJoined, IsSavingJoin, after_join};
ghost use Rattle.augment_merge.specs.Outlines.{AreBestRows, AreDoable, AreOutlinesOf, AreReoutlined};

use crate::joins::Join;
use crate::laws::tours_have_deadheads;
use crate::outline::Outline;
use crate::renewing::renew;
use crate::searching::{best_rows, first_of};
use crate::tour::Tour;
use carp_base::{Instance, Memory};
use deadhead_paths::Distances;
use std::alloc::Global;

// The outlines of tours.
fn outlines_of(
    alloc: Global,
    inst: &Instance,
    dist: &Distances,
    tours: &[Tour],
) -> Result<Vec<Outline>, Memory>
    requires problem { dist.now.problem ≡ inst.now }
    requires prices { dist.now.prices ≡ costs_of inst.now }
    requires doable { AreDoable inst.now tours.now }
    ensures { IfOk result (λ outlines. AreOutlinesOf inst.now tours.now outlines.items) }
{
    let mut outlines = Vec::new(alloc);
    for tour in tours {
        outlines.push(Outline::of(inst, dist, tour.tasks()))?;
    }
    Ok(outlines)
}

// Joins two tours, and leaves nothing in place of the later one.
fn make(
    alloc: Global,
    inst: &Instance,
    dist: &Distances,
    join: &Join,
    tours: &mut [Tour],
    outlines: &mut [Outline],
) -> Result<(), Memory>
    requires problem { dist.now.problem ≡ inst.now }
    requires prices { dist.now.prices ≡ costs_of inst.now }
    requires doable { AreDoable inst.now tours.old }
    requires one_each { length outlines.old ≡ length tours.old }
    requires saves { IsSavingJoin inst.now tours.old join.now }
    ensures tours { OnOk result (tours.new ≡ after_join tours.old join.now) }
    ensures outlines { OnOk result (AreReoutlined inst.now tours.old join.now outlines.old outlines.new) }
{
    let tour = Tour::joined(
        alloc,
        &tours[join.first],
        &tours[join.second],
        join.turn_first,
        join.turn_second,
    )?;
    outlines[join.first] = Outline::of(inst, dist, tour.tasks());
    outlines[join.second] = Outline::of(inst, dist, &[]);
    tours[join.first] = tour;
    tours[join.second] = Tour::new(alloc);
    Ok(())
}

// Makes joins, each of which saves most, until none saves.
fn join_all(
    alloc: Global,
    inst: &Instance,
    dist: &Distances,
    tours: &mut [Tour],
    outlines: &mut [Outline],
    rows: &mut [Option<Join>],
) -> Result<(), Memory>
    requires problem { dist.now.problem ≡ inst.now }
    requires prices { dist.now.prices ≡ costs_of inst.now }
    requires doable { AreDoable inst.now tours.old }
    requires outlined { AreOutlinesOf inst.now tours.old outlines.old }
    requires best { AreBestRows inst.now outlines.old rows.old }
    ensures { OnOk result (AreJoined inst.now tours.old tours.new) }
{
    tours_have_deadheads();
    inst.validity();
    while let Some(join) = first_of(rows) {
        make(alloc, inst, dist, &join, tours, outlines)?;
        renew(inst, dist, outlines, &join, rows);
    }
    Ok(())
}

// The tours after joins, each of which saves most, until none saves.
pub(crate) fn merge(
    alloc: Global,
    inst: &Instance,
    dist: &Distances,
    mut tours: Vec<Tour>,
) -> Result<Vec<Tour>, Memory>
    requires problem { dist.now.problem ≡ inst.now }
    requires prices { dist.now.prices ≡ costs_of inst.now }
    requires doable { AreDoable inst.now tours.items }
    ensures { IfOk result (λ merged. AreJoined inst.now tours.items merged.items) }
{
    let mut outlines = outlines_of(alloc, inst, dist, &tours)?;
    let mut rows = best_rows(alloc, inst, dist, &outlines)?;
    join_all(alloc, inst, dist, &mut tours, &mut outlines, &mut rows)?;
    Ok(tours)
}
