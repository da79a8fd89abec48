// The sets that have a weight, listed for the answer.
ghost use Rattle.std.specs.Prelude.{◌≡◌, ◌+◌, ◌*◌, ◌<◌, ◌≤◌, ◌++◌, false, length, slice_index, slice_index_or, IfOk, OnOk};
ghost use Rattle.blossom_match.specs.Unfolded.{ArePicked, IsUnfolded, listed};

use crate::Costs;
use crate::state::State;
use carp_base::Memory;
use std::alloc::Global;

/// The members of some sets, one set after another, and the weights of the sets.
#[derive(Drop)]
pub(crate) struct Sets {
    /// Where the members of each set begin, and at last where they end.
    pub starts: Vec<usize>,
    /// The members of each set in ascending order, numbered from 1.
    pub members: Vec<u32>,
    pub weights: Vec<u64>,
}

/// Lists the members of one node after those of others.
fn list_members(row: &[bool], members: &mut Vec<u32>) -> Result<(), Memory>
    requires few { length row.now ≤ 1000 }
    ensures { OnOk result (members.new.items ≡ members.old.items ++ listed (length row.now) (λ v. slice_index_or row.now v false)) }
{
    for v in 0..row.len() {
        if row[v] {
            members.push(v as u32 + 1)?;
        }
    }
    Ok(())
}

/// Lists a node that has a weight.
fn pick(costs: &Costs, state: &State, s: usize, sets: &mut Sets) -> Result<(), Memory>
    requires unfolded { IsUnfolded costs.now state.now }
    requires few { state.now.size ≤ 1000 }
    requires s_in { s < 2 * state.now.size }
    requires some { 1 ≤ slice_index state.now.halves.items s }
    requires picked { ArePicked state.now s sets.old.starts.items sets.old.members.items sets.old.weights.items }
    ensures { OnOk result (ArePicked state.now (s + 1) sets.new.starts.items sets.new.members.items sets.new.weights.items) }
{
    list_members(
        &state.held[s * state.size..(s + 1) * state.size],
        &mut sets.members,
    )?;
    sets.starts.push(sets.members.len())?;
    sets.weights.push(state.halves[s])?;
    Ok(())
}

/// Lists one node, if it has a weight.
fn pick_weighted(costs: &Costs, state: &State, s: usize, sets: &mut Sets) -> Result<(), Memory>
    requires unfolded { IsUnfolded costs.now state.now }
    requires few { state.now.size ≤ 1000 }
    requires s_in { s < 2 * state.now.size }
    requires picked { ArePicked state.now s sets.old.starts.items sets.old.members.items sets.old.weights.items }
    ensures { OnOk result (ArePicked state.now (s + 1) sets.new.starts.items sets.new.members.items sets.new.weights.items) }
{
    if state.halves[s] == 0 {
        return Ok(());
    }
    pick(costs, state, s, sets)
}

/// The nodes that have a weight, in their order.
pub(crate) fn list_sets(alloc: Global, costs: &Costs, state: &State) -> Result<Sets, Memory>
    requires unfolded { IsUnfolded costs.now state.now }
    requires few { state.now.size ≤ 1000 }
    ensures { IfOk result (λ m. ArePicked state.now (2 * state.now.size) m.starts.items m.members.items m.weights.items) }
{
    let mut sets = Sets {
        starts: vec![in alloc; 0; 1]?,
        members: Vec::new(alloc),
        weights: Vec::new(alloc),
    };
    for s in 0..2 * state.size {
        pick_weighted(costs, state, s, &mut sets)?;
    }
    Ok(sets)
}
