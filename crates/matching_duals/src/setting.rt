// The levels of all sets of a matching, the smaller sets first.
ghost use Rattle.std.specs.Prelude.{◌≡◌, ℕ, ◌+◌, ◌<◌, ◌≤◌, ◌==◌, ◌∷◌, length, slice_index, IfOk, OnOk, if◌then◌else◌};
ghost use Rattle.std.specs.List.{All, list_any};
ghost use Rattle.blossom_match.specs.Answer.{IsListed, IsMatching, len_in, member_in, sets_in};
ghost use Rattle.matching_duals.specs.OddSets.{AreDistinct};
ghost use Rattle.matching_duals.specs.Paths.{AreReaches};
ghost use Rattle.matching_duals.specs.Sets.{AreLaid, AreSets, members_of, set_of, sets_below, sets_to};

use crate::depth_rows::depths_of;
use crate::ground::Ground;
use crate::runs::add_levels;
use blossom_match::Matching;
use carp_base::{Instance, Memory};
use cut_pool::Weighted;
use edge_components::vertices_are_listed;
use std::alloc::Global;

// The weights of the sets laid so far that hold each vertex, and the shores of their levels.
#[derive(Drop)]
pub(crate) struct Laying {
    enclosing: Vec<u64>,
    pub(crate) shores: Vec<Weighted>,
}

// The members of a set, as vertices.
fn list_members(
    alloc: Global,
    odd: &[u32],
    matching: &Matching,
    i: usize,
) -> Result<Vec<u32>, Memory>
    requires made { IsMatching matching.now }
    requires set { i < sets_in matching.now }
    requires listed { IsListed (length odd.now) (len_in matching.now i) (member_in matching.now i) }
    ensures { IfOk result (λ members. members.items ≡ members_of odd.now matching.now i (len_in matching.now i)) }
{
    let mut members = Vec::with_capacity(alloc, matching.set_len(i))?;
    for j in 0..matching.set_len(i) {
        members.push(odd[matching.member(i, j) as usize - 1])?;
    }
    Ok(members)
}

// Adds a weight round each of some vertices.
fn add_enclosing(enclosing: &mut [u64], members: &[u32], more: u64)
    requires distinct { AreDistinct members.now }
    requires members { All (λ v. v < length enclosing.old) members.now }
    requires small { All (λ v. slice_index enclosing.old v + more ≤ 4000000000000000) members.now }
    ensures { (v : ℕ) → slice_index enclosing.new v ≡ slice_index enclosing.old v + (if list_any (λ x. x == v) members.now then more else 0) }
{
    for i in 0..members.len() {
        enclosing[members[i] as usize] += more;
    }
}

// Adds the levels of a set, where those of all sets before it are laid.
fn lay_set(
    alloc: Global,
    inst: &Instance,
    ground: &Ground,
    matching: &Matching,
    i: usize,
    laying: &mut Laying,
) -> Result<(), Memory>
    requires set { i < sets_in matching.now }
    requires reaches { AreReaches inst.now ground.now.table.items }
    requires sets { AreSets inst.now ground.now.odd.items ground.now.table.items matching.now }
    requires laid { AreLaid inst.now ground.now.table.items (sets_to ground.now.odd.items matching.now (len_in matching.now i) i) laying.old.enclosing.items laying.old.shores.items }
    ensures { OnOk result (AreLaid inst.now ground.now.table.items (set_of ground.now.odd.items matching.now i ∷ sets_to ground.now.odd.items matching.now (len_in matching.now i) i) laying.new.enclosing.items laying.new.shores.items) }
{
    vertices_are_listed();
    inst.validity();
    let weight = matching.halves(i);
    let members = list_members(alloc, &ground.odd, matching, i)?;
    let depths = depths_of(
        alloc,
        inst,
        &ground.table,
        &laying.enclosing,
        weight,
        &members,
    )?;
    add_levels(alloc, inst, &depths, weight, &mut laying.shores)?;
    add_enclosing(&mut laying.enclosing, &members, weight);
    Ok(())
}

// Adds the levels of a set where it has a size.
fn lay_where(
    alloc: Global,
    inst: &Instance,
    ground: &Ground,
    matching: &Matching,
    size: usize,
    i: usize,
    laying: &mut Laying,
) -> Result<(), Memory>
    requires set { i < sets_in matching.now }
    requires reaches { AreReaches inst.now ground.now.table.items }
    requires sets { AreSets inst.now ground.now.odd.items ground.now.table.items matching.now }
    requires laid { AreLaid inst.now ground.now.table.items (sets_to ground.now.odd.items matching.now size i) laying.old.enclosing.items laying.old.shores.items }
    ensures { OnOk result (AreLaid inst.now ground.now.table.items (sets_to ground.now.odd.items matching.now size (i + 1)) laying.new.enclosing.items laying.new.shores.items) }
{
    if matching.set_len(i) == size {
        lay_set(alloc, inst, ground, matching, i, laying)?;
    }
    Ok(())
}

// Adds the levels of the sets of a size, where those of all smaller sets are laid.
fn lay_size(
    alloc: Global,
    inst: &Instance,
    ground: &Ground,
    matching: &Matching,
    size: usize,
    laying: &mut Laying,
) -> Result<(), Memory>
    requires reaches { AreReaches inst.now ground.now.table.items }
    requires sets { AreSets inst.now ground.now.odd.items ground.now.table.items matching.now }
    requires laid { AreLaid inst.now ground.now.table.items (sets_below ground.now.odd.items matching.now size) laying.old.enclosing.items laying.old.shores.items }
    ensures { OnOk result (AreLaid inst.now ground.now.table.items (sets_below ground.now.odd.items matching.now (size + 1)) laying.new.enclosing.items laying.new.shores.items) }
{
    for i in 0..matching.sets() {
        lay_where(alloc, inst, ground, matching, size, i, laying)?;
    }
    Ok(())
}

// The levels of all sets of a matching of the odd vertices.
pub(crate) fn lay_sets(
    alloc: Global,
    inst: &Instance,
    ground: &Ground,
    matching: &Matching,
) -> Result<Laying, Memory>
    requires reaches { AreReaches inst.now ground.now.table.items }
    requires sets { AreSets inst.now ground.now.odd.items ground.now.table.items matching.now }
    ensures { IfOk result (λ laying. AreLaid inst.now ground.now.table.items (sets_below ground.now.odd.items matching.now (length ground.now.odd.items + 1)) laying.enclosing.items laying.shores.items) }
{
    let mut laying = Laying {
        enclosing: vec![in alloc; 0; inst.vertices() as usize + 1]?,
        shores: Vec::new(alloc),
    };
    for size in 0..ground.odd.len() + 1 {
        lay_size(alloc, inst, ground, matching, size, &mut laying)?;
    }
    Ok(laying)
}
