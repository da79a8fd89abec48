// Shores with weights, of which equal ones are taken together.
ghost use Rattle.std.specs.Prelude.{◌+◌, ◌<◌, ◌≤◌, length, MatchOption, OnOk};
ghost use Rattle.matching_duals.specs.Joins.{all_halves};
ghost use Rattle.matching_duals.specs.Levels.{AreJoined, IsAdded, IsRaised, IsStanding, Stands};

use carp_base::Memory;
use cut_pool::{Shore, Weighted};

// The place of a shore in a list.
fn find_equal(shores: &[Weighted], shore: &Shore) -> Option<usize>
    ensures { MatchOption result (¬ (Stands shores.now shore.now)) (IsStanding shores.now shore.now) }
{
    for i in 0..shores.len() {
        if shores[i].shore == *shore {
            return Some(i);
        }
    }
    None
}

// Raises the weight of a shore.
fn raise(shores: &mut [Weighted], i: usize, more: u64)
    requires place { i < length shores.old }
    requires joined { AreJoined shores.old }
    requires small { all_halves shores.old + more ≤ 4000000000000000 }
    ensures { IsRaised shores.old i more shores.new }
{
    shores[i].weight += more as i64;
}

// Adds a shore with a weight to shores that are different. Where an equal one is there, its weight is raised.
pub(crate) fn add_shore(shores: &mut Vec<Weighted>, shore: Shore, more: u64) -> Result<(), Memory>
    requires joined { AreJoined shores.old.items }
    requires some { 1 ≤ more }
    requires small { all_halves shores.old.items + more ≤ 4000000000000000 }
    ensures { OnOk result (IsAdded shores.old.items shore more shores.new.items) }
{
    match find_equal(shores, &shore) {
        Some(i) => raise(shores, i, more),
        None => shores.push(Weighted {
            shore,
            weight: more as i64,
        })?,
    }
    Ok(())
}
