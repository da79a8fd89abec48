// Weights that are cut down until they pack, and raised by what is left.
ghost use Rattle.std.specs.Prelude.{◌≡◌, ℕ, ◌<◌, [], All, IfOk, length};
ghost use Rattle.cut_pool.specs.Shores.{Belongs};
ghost use Rattle.shore_program.specs.Programs.{ListsNoMore, Packs};
ghost use Rattle.shore_program.specs.Tableaus.{AreWeighted, LeavesRoom, shores_of};

use crate::cuts::Cut;
use crate::reading::{Reading, weights_of};
use crate::rooms::{MOST, lay, rooms_of, take};
use crate::tableau::Tableau;
use carp_base::{Edge, Instance, Memory};
use cut_pool::Weighted;
use std::alloc::Global;

// The place of a cut, and the number by which it is sorted, the least one first.
#[derive(Clone, Copy)]
struct Rank {
    place: usize,
    key: u128,
}

// What a cut adds to the value by its weight comes first where that is the most.
fn key_by_value(cut: &Cut, weight: u64) -> u128 {
    u128::MAX - u128::from(weight).saturating_mul(u128::from(cut.least))
}

// A cut that demands the most for each edge that crosses it comes first.
fn key_by_need(cut: &Cut) -> u128 {
    let need = u128::from(cut.least).saturating_mul(1 << 32);
    u128::MAX - need / u128::from(cut.crossings.max(1))
}

fn ranks_by_value(alloc: Global, cuts: &[Cut], weights: &[u64]) -> Result<Vec<Rank>, Memory>
    requires { length weights.now ≡ length cuts.now }
    ensures { IfOk result (λ ranks. All (λ x. x.place < length cuts.now) ranks.items) }
{
    let mut ranks = Vec::with_capacity(alloc, cuts.len())?;
    for place in 0..cuts.len() {
        ranks.push(Rank {
            place,
            key: key_by_value(&cuts[place], weights[place]),
        })?;
    }
    Ok(ranks)
}

fn ranks_by_need(alloc: Global, cuts: &[Cut]) -> Result<Vec<Rank>, Memory>
    ensures { IfOk result (λ ranks. All (λ x. x.place < length cuts.now) ranks.items) }
{
    let mut ranks = Vec::with_capacity(alloc, cuts.len())?;
    for place in 0..cuts.len() {
        ranks.push(Rank {
            place,
            key: key_by_need(&cuts[place]),
        })?;
    }
    Ok(ranks)
}

// Raises the weights of cuts, one after another, by what is left, at most so much each.
fn raise(
    edges: &[Edge],
    rooms: &mut [u64],
    cuts: &[Cut],
    ranks: &[Rank],
    most: &[u64],
    weights: &mut [u64],
)
    requires rooms { length rooms.old ≡ length edges.now }
    requires ranks { All (λ x. x.place < length cuts.now) ranks.now }
    requires most { length most.now ≡ length cuts.now }
    requires weights { length weights.old ≡ length cuts.now }
{
    for rank in ranks {
        let place = rank.place;
        let more = take(edges, rooms, &cuts[place].shore, most[place]);
        weights[place] = weights[place].saturating_add(more);
    }
}

// Weights that pack: first each is cut down to what is left, the ones that add most to the value first, and then each is raised by
// what is left, the cuts that demand most for each edge first. It takes time in proportion to the number of cuts times that of edges.
fn pack(alloc: Global, edges: &[Edge], cuts: &[Cut], wishes: &[u64]) -> Result<Vec<u64>, Memory>
    requires { length wishes.now ≡ length cuts.now }
    ensures { IfOk result (λ weights. length weights.items ≡ length cuts.now) }
{
    let mut rooms = rooms_of(alloc, edges)?;
    let mut weights = vec![in alloc; 0; cuts.len()]?;
    let mut ranks = ranks_by_value(alloc, cuts, wishes)?;
    sort(&mut ranks);
    raise(edges, &mut rooms, cuts, &ranks, wishes, &mut weights);
    let most = vec![in alloc; MOST; cuts.len()]?;
    let mut ranks = ranks_by_need(alloc, cuts)?;
    sort(&mut ranks);
    raise(edges, &mut rooms, cuts, &ranks, &most, &mut weights);
    Ok(weights)
}

// Sorts ranks by their keys.
fn sort(ranks: &mut [Rank])
    ensures { (end : ℕ) → All (λ x. x.place < end) ranks.old → All (λ x. x.place < end) ranks.new }
{
    ranks.sort_unstable_by_key(|rank| rank.key);
}

// The value of weights: what is demanded over each shore, times its weight.
fn value_of(cuts: &[Cut], weights: &[u64]) -> u128
    requires { length weights.now ≡ length cuts.now }
{
    let mut value: u128 = 0;
    for place in 0..cuts.len() {
        let more = u128::from(weights[place]).saturating_mul(u128::from(cuts[place].least));
        value = value.saturating_add(more);
    }
    value
}

/// Weights that pack, by the better of the two readings of the corner.
pub(crate) fn packed(
    alloc: Global,
    edges: &[Edge],
    cuts: &[Cut],
    tableau: &Tableau,
) -> Result<Vec<u64>, Memory>
    ensures { IfOk result (λ weights. length weights.items ≡ length cuts.now) }
{
    let lossy = weights_of(alloc, cuts.len(), &tableau.rows, Reading::Lossy)?;
    let lossy = pack(alloc, edges, cuts, &lossy)?;
    let true_ones = weights_of(alloc, cuts.len(), &tableau.rows, Reading::True)?;
    let true_ones = pack(alloc, edges, cuts, &true_ones)?;
    if value_of(cuts, &lossy) > value_of(cuts, &true_ones) {
        Ok(lossy)
    } else {
        Ok(true_ones)
    }
}

// Adds each shore with what is left for it, at most its weight.
fn lay_all(
    alloc: Global,
    inst: &Instance,
    rooms: &mut [u64],
    cuts: &[Cut],
    weights: &[u64],
) -> Result<Vec<Weighted>, Memory>
    requires belong { All (λ c. Belongs inst.now c.shore) cuts.now }
    requires weights { length weights.now ≡ length cuts.now }
    requires room { LeavesRoom inst.now.edges rooms.old [] }
    ensures weighted { IfOk result (λ shores. AreWeighted inst.now cuts.now shores.items) }
    ensures packs { IfOk result (λ shores. Packs inst.now shores.items) }
    ensures once { IfOk result (λ shores. ListsNoMore (shores_of cuts.now) shores.items) }
{
    let edges = inst.edges();
    let mut shores = Vec::new(alloc);
    for place in 0..cuts.len() {
        lay(
            alloc,
            edges,
            rooms,
            &cuts[place],
            weights[place],
            &mut shores,
        )?;
    }
    Ok(shores)
}

/// The shores with a weight above 0, each once for its cut. Each is given what is left for it, so that they pack
/// whatever the weights are.
pub(crate) fn lay_out(
    alloc: Global,
    inst: &Instance,
    cuts: &[Cut],
    weights: &[u64],
) -> Result<Vec<Weighted>, Memory>
    requires belong { All (λ c. Belongs inst.now c.shore) cuts.now }
    requires weights { length weights.now ≡ length cuts.now }
    ensures weighted { IfOk result (λ shores. AreWeighted inst.now cuts.now shores.items) }
    ensures packs { IfOk result (λ shores. Packs inst.now shores.items) }
    ensures once { IfOk result (λ shores. ListsNoMore (shores_of cuts.now) shores.items) }
{
    let mut rooms = rooms_of(alloc, inst.edges())?;
    lay_all(alloc, inst, &mut rooms, cuts, weights)
}
