// Deadheads on the least paths between matched vertices, joined by parity.
ghost use Rattle.std.specs.Prelude.{◌≡◌, ℕ, ◌+◌, ◌%◌, ◌<◌, ◌≤◌, ◌==◌, length, count_by, slice_index, IfOk, OnOk};
ghost use Rattle.carp_base.specs.Problem.{IsEdgeNumber};
ghost use Rattle.plan_model.specs.Plans.{IsOnEdges};
ghost use Rattle.deadhead_paths.specs.Prices.{costs_of};
ghost use Rattle.blossom_match.specs.Answer.{IsMatching, mate_in};
ghost use Rattle.edge_components.specs.Parts.{parts_of};
ghost use Rattle.edge_components.specs.Listing.{vertices_where};
ghost use Rattle.matching_duals.specs.OddSets.{is_odd};
ghost use Rattle.matching_duals.specs.Joins.{join_cost};
ghost use Rattle.matching_duals.specs.Paths.{AreReaches};
ghost use Rattle.matching_duals.specs.Pairs.{ArePaired};

use crate::ground::Ground;
use blossom_match::Matching;
use carp_base::{Instance, Memory};
use deadhead_paths::Distances;
use edge_components::vertices_are_listed;
use plan_model::Walk;
use std::alloc::Global;

// For each step of a walk, turns the count of its edge from 0 to 1 or from 1 to 0.
fn toggle(inst: &Instance, counts: &mut [u64], walk: &Walk)
    requires long { length counts.old ≡ length inst.now.edges }
    requires bits { (k : ℕ) → slice_index counts.old k ≤ 1 }
    requires edges { IsOnEdges inst.now walk.now }
    ensures parities { (e : ℕ) → IsEdgeNumber inst.now e → parts_of counts.new e ≡ (parts_of counts.old e + count_by (λ s. s.edge == e) walk.now) % 2 }
    ensures bits { (k : ℕ) → slice_index counts.new k ≤ 1 }
{
    for i in 0..walk.len() {
        let place = walk.step(i).edge as usize - 1;
        counts[place] = 1 - counts[place];
    }
}

// Joins the path between an odd vertex and its mate, where the mate comes later.
fn join_pair(
    alloc: Global,
    inst: &Instance,
    dist: &Distances,
    ground: &Ground,
    matching: &Matching,
    i: usize,
    counts: &mut [u64],
) -> Result<(), Memory>
    requires problem { dist.now.problem ≡ inst.now }
    requires costs { dist.now.prices ≡ costs_of inst.now }
    requires reaches { AreReaches inst.now ground.now.table.items }
    requires odd { ground.now.odd.items ≡ vertices_where (is_odd inst.now) inst.now.vertices }
    requires made { IsMatching matching.now }
    requires size { matching.now.size ≡ length ground.now.odd.items }
    requires place { i < length ground.now.odd.items }
    requires paired { ArePaired inst.now ground.now.odd.items ground.now.table.items (mate_in matching.now) i counts.old }
    ensures { OnOk result (ArePaired inst.now ground.now.odd.items ground.now.table.items (mate_in matching.now) (i + 1) counts.new) }
{
    vertices_are_listed();
    inst.validity();
    let mate = matching.mate(i as u32 + 1) as usize - 1;
    if i < mate {
        let mut walk = Walk::new(alloc);
        dist.follow(&mut walk, ground.odd[i], ground.odd[mate])?;
        toggle(inst, counts, &walk);
    }
    Ok(())
}

// For each edge 1 or 0, as an odd or even number of paths between matched vertices crosses it.
pub(crate) fn join_pairs(
    alloc: Global,
    inst: &Instance,
    dist: &Distances,
    ground: &Ground,
    matching: &Matching,
) -> Result<Vec<u64>, Memory>
    requires problem { dist.now.problem ≡ inst.now }
    requires costs { dist.now.prices ≡ costs_of inst.now }
    requires reaches { AreReaches inst.now ground.now.table.items }
    requires odd { ground.now.odd.items ≡ vertices_where (is_odd inst.now) inst.now.vertices }
    requires made { IsMatching matching.now }
    requires size { matching.now.size ≡ length ground.now.odd.items }
    ensures { IfOk result (λ counts. ArePaired inst.now ground.now.odd.items ground.now.table.items (mate_in matching.now) (length ground.now.odd.items) counts.items) }
{
    let mut counts = vec![in alloc; 0; inst.edge_count() as usize]?;
    for i in 0..ground.odd.len() {
        join_pair(alloc, inst, dist, ground, matching, i, &mut counts)?;
    }
    Ok(counts)
}

// What deadheads cost.
pub(crate) fn cost_of(inst: &Instance, counts: &[u64]) -> u64
    requires long { length counts.now ≡ length inst.now.edges }
    requires bits { (k : ℕ) → slice_index counts.now k ≤ 1 }
    ensures { result ≡ join_cost inst.now counts.now }
{
    let mut cost = 0;
    for i in 0..inst.edge_count() {
        cost += counts[i as usize] * inst.edge(i + 1).cost;
    }
    cost
}
