// The nearest edges of each edge.
ghost use Rattle.std.specs.Prelude.{◌≡◌, ◌+◌, ◌*◌, ◌/◌, ◌<◌, IfOk, length};
ghost use Rattle.ruin_recreate.specs.Boards.{IsBoard};

use crate::board::Board;
use carp_base::Memory;
use std::alloc::Global;

// How many neighbours an edge has.
const COUNT: usize = 60;

// The nearest edges of an edge, nearest first, and 0 if there are no more.
pub(crate) type Neighbours = [u32; COUNT];

// The least of the links between two edges, in any directions.
fn apart(board: &Board, e: u32, f: u32) -> u32
    requires board { IsBoard board.now }
    requires first { 2 * e + 1 < board.now.width }
    requires second { 2 * f + 1 < board.now.width }
{
    let (from, to) = (2 * e, 2 * f);
    let ahead = board.between(from, to).min(board.between(from, to + 1));
    let back = board
        .between(from + 1, to)
        .min(board.between(from + 1, to + 1));
    ahead.min(back)
}

// Lists the other edges by rising distance, and then by number.
fn sort_others(board: &Board, e: u32, others: &mut Vec<(u32, u32)>) -> Result<(), Memory>
    requires board { IsBoard board.now }
    requires edge { 2 * e + 1 < board.now.width }
{
    others.clear();
    for f in 1..board.edges() + 1 {
        if f != e {
            others.push((apart(board, e, f), f))?;
        }
    }
    others.sort_unstable();
    Ok(())
}

// The first of the others.
fn nearest(others: &[(u32, u32)]) -> Neighbours {
    let mut near = [0; COUNT];
    for k in 0..others.len().min(COUNT) {
        near[k] = others[k].1;
    }
    near
}

// The neighbours of each edge, by number. Number 0 has none.
pub(crate) fn neighbours(alloc: Global, board: &Board) -> Result<Vec<Neighbours>, Memory>
    requires { IsBoard board.now }
    ensures { IfOk result (λ near. length near.items ≡ board.now.width / 2) }
{
    let edges = board.edges();
    let mut others = Vec::with_capacity(alloc, edges as usize)?;
    let mut near = Vec::with_capacity(alloc, edges as usize + 1)?;
    near.push([0; COUNT])?;
    for e in 1..edges + 1 {
        sort_others(board, e, &mut others)?;
        near.push(nearest(&others))?;
    }
    Ok(near)
}
