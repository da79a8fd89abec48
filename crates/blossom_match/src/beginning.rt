// The state before the first search.
ghost use Rattle.std.specs.Prelude.{◌≡◌, ◌≢◌, ℕ, ◌*◌, ◌<◌, ◌≤◌, true, false, length, slice_index, slice_index_or, None, IfOk};
ghost use Rattle.blossom_match.specs.Table.{IsAsked};
ghost use Rattle.blossom_match.specs.Views.{child_at, holds, mate_at};
ghost use Rattle.blossom_match.specs.Between.{IsBetween, IsTreeless};

use crate::Costs;
use crate::state::{Label, Pair, State};
use carp_base::Memory;
use std::alloc::Global;

/// Puts each member into the node of its number.
#[tactic(auto, using(crate::proofs::Cells::cell_in))]
fn hold_singles(held: &mut [bool], size: usize)
    requires few { size ≤ 1000 }
    requires len { length held.old ≡ 2 * size * size }
    requires empty { (k : ℕ) → slice_index_or held.old k false ≡ false }
    ensures own { (v : ℕ) → v < size → holds size held.new v v ≡ true }
    ensures others { (s v : ℕ) → v < size → s ≢ v → holds size held.new s v ≡ false }
{
    for v in 0..size {
        held[v * size + v] = true;
    }
}

/// Rows in which each member is in the node of its number.
#[tactic(auto, using(crate::proofs::Singles::replicate_all))]
fn singles(alloc: Global, size: usize) -> Result<Vec<bool>, Memory>
    requires few { size ≤ 1000 }
    ensures len { IfOk result (λ l. length l.items ≡ 2 * size * size) }
    ensures own { IfOk result (λ l. (v : ℕ) → v < size → holds size l.items v v ≡ true) }
    ensures others { IfOk result (λ l. (s v : ℕ) → v < size → s ≢ v → holds size l.items s v ≡ false) }
{
    let mut held = vec![in alloc; false; 2 * size * size]?;
    hold_singles(&mut held, size);
    Ok(held)
}

/// The numbers from 0.
fn numbers(alloc: Global, len: usize) -> Result<Vec<usize>, Memory>
    requires few { len ≤ 2000 }
    ensures len { IfOk result (λ l. length l.items ≡ len) }
    ensures each { IfOk result (λ l. (k : ℕ) → k < len → slice_index l.items k ≡ k) }
{
    let mut list = Vec::with_capacity(alloc, len)?;
    for k in 0..len {
        list.push(k)?;
    }
    Ok(list)
}

/// As many weights of 0.
#[tactic(auto, using(crate::proofs::Singles::replicate_all))]
fn weights(alloc: Global, len: usize) -> Result<Vec<u64>, Memory>
    requires few { len ≤ 2000 }
    ensures len { IfOk result (λ l. length l.items ≡ len) }
    ensures each { IfOk result (λ l. (k : ℕ) → slice_index l.items k ≡ 0) }
{
    Ok(vec![in alloc; 0; len]?)
}

/// As many places without a node.
#[tactic(auto, using(crate::proofs::Singles::replicate_all))]
fn no_nodes(alloc: Global, len: usize) -> Result<Vec<Option<usize>>, Memory>
    requires few { len ≤ 2000 }
    ensures len { IfOk result (λ l. length l.items ≡ len) }
    ensures each { IfOk result (λ l. (k : ℕ) → child_at l.items k ≡ None) }
{
    Ok(vec![in alloc; None; len]?)
}

/// As many places without a pair.
#[tactic(auto, using(crate::proofs::Singles::replicate_all))]
fn no_mates(alloc: Global, len: usize) -> Result<Vec<Option<Pair>>, Memory>
    requires few { len ≤ 2000 }
    ensures len { IfOk result (λ l. length l.items ≡ len) }
    ensures each { IfOk result (λ l. (k : ℕ) → mate_at l.items k ≡ None) }
{
    Ok(vec![in alloc; None; len]?)
}

/// As many pairs that are not used.
fn pairs(alloc: Global, len: usize) -> Result<Vec<Pair>, Memory>
    requires few { len ≤ 2000 }
    ensures { IfOk result (λ l. length l.items ≡ len) }
{
    let nothing = Pair {
        inside: 0,
        outside: 0,
    };
    Ok(vec![in alloc; nothing; len]?)
}

/// As many nodes outside the tree.
#[tactic(auto, using(crate::proofs::Singles::replicate_all))]
fn free_labels(alloc: Global, len: usize) -> Result<Vec<Label>, Memory>
    requires few { len ≤ 2000 }
    ensures len { IfOk result (λ l. length l.items ≡ len) }
    ensures each { IfOk result (λ l. IsTreeless l.items) }
{
    Ok(vec![in alloc; Label::Free; len]?)
}

/// No weights, no larger sets, no matched pairs and no tree.
pub(crate) fn begin(alloc: Global, costs: &Costs) -> Result<State, Memory>
    requires { IsAsked costs.now }
    ensures between { IfOk result (IsBetween costs.now) }
    ensures treeless { IfOk result (λ s. IsTreeless s.label.items) }
{
    let size = costs.size;
    Ok(State {
        size,
        held: singles(alloc, size)?,
        halves: weights(alloc, 2 * size)?,
        top: numbers(alloc, size)?,
        sums: weights(alloc, size)?,
        child: no_nodes(alloc, 2 * size)?,
        next: numbers(alloc, 2 * size)?,
        link: pairs(alloc, 2 * size)?,
        mate: no_mates(alloc, 2 * size)?,
        label: free_labels(alloc, 2 * size)?,
        entry: pairs(alloc, 2 * size)?,
        one_way: no_nodes(alloc, 2 * size)?,
        other_way: no_nodes(alloc, 2 * size)?,
        base: numbers(alloc, 2 * size)?,
        root: 0,
    })
}
