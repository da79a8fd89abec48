// Columns that go out of use.
ghost use Rattle.std.specs.Prelude.{◌≡◌, ◌≤◌, length};
ghost use Rattle.linear_program.specs.Limits.{store_column_limit};
ghost use Rattle.linear_program.specs.Bases.{IsBasis};
ghost use Rattle.linear_program.specs.Programs.{HasNoMoreColumns};
ghost use Rattle.linear_program.specs.Selections.{in_use};

use crate::basis::Basis;
use crate::costs::column_reduced_cost;
use crate::ids::ColumnId;
use crate::selection::Selection;
use crate::store::Store;
use carp_base::Memory;
use std::alloc::Global;

// A column, and the number by which it is sorted, the least one first.
#[derive(Clone, Copy)]
struct Rank {
    key: i64,
    column: ColumnId,
}

// The number by which a column is sorted: the least of all if it stays always.
fn key_of(
    store: &Store,
    selection: &Selection,
    basis: &Basis,
    fixed: usize,
    column: ColumnId,
) -> i64
    requires { IsBasis (length selection.now.rows.items) basis.now }
{
    if column.number() < fixed || basis.basic[column.number()] {
        i64::MIN
    } else if selection.forbidden[column.number()] {
        i64::MAX
    } else {
        column_reduced_cost(store, selection, &basis.multipliers, column).value()
    }
}

// The columns in use with their ranks.
fn ranks_of(
    alloc: Global,
    store: &Store,
    selection: &Selection,
    basis: &Basis,
    fixed: usize,
) -> Result<Vec<Rank>, Memory>
    requires { IsBasis (length selection.now.rows.items) basis.now }
{
    let mut ranks = Vec::with_capacity(alloc, selection.columns.len())?;
    for column in &selection.columns {
        let key = key_of(store, selection, basis, fixed, *column);
        ranks.push(Rank {
            key,
            column: *column,
        })?;
    }
    Ok(ranks)
}

fn sort(ranks: &mut [Rank]) {
    ranks.sort_unstable_by_key(|rank| (rank.key, rank.column.number()));
}

// Marks columns as not in use, from a rank on, unless they stay always.
fn mark(ranks: &[Rank], keep: usize, used: &mut [bool])
    requires { length used.old ≡ store_column_limit }
{
    for place in keep..ranks.len() {
        if ranks[place].key > i64::MIN {
            used[ranks[place].column.number()] = false;
        }
    }
}

// Keeps the columns that are marked as in use.
fn keep_used(columns: &mut Vec<ColumnId>, used: &[bool])
    requires { length used.now ≡ store_column_limit }
    ensures { length columns.new.items ≤ length columns.old.items }
{
    columns.retain(|column| used[column.number()]);
}

/// Keeps so many columns, those of least reduced cost. Basic ones stay always, and so do those numbered below `fixed`.
pub(crate) fn forget_columns(
    alloc: Global,
    store: &Store,
    selection: &mut Selection,
    basis: &Basis,
    keep: usize,
    fixed: usize,
) -> Result<(), Memory>
    requires { IsBasis (length selection.old.rows.items) basis.now }
    ensures { HasNoMoreColumns (in_use selection.old) (in_use selection.new) }
{
    if selection.columns.len() <= keep {
        return Ok(());
    }
    let mut ranks = ranks_of(alloc, store, selection, basis, fixed)?;
    sort(&mut ranks);
    mark(&ranks, keep, &mut selection.used);
    keep_used(&mut selection.columns, &selection.used);
    Ok(())
}
