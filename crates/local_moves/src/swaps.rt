// Swaps of two services.
ghost use Rattle.std.specs.Prelude.{◌≡◌, ℕ, ◌<◌, ◌≤◌, ◌+◌, false, IfOk, MatchOption, length};
ghost use Rattle.local_moves.specs.Loads.{AreApart, AreLoads};
ghost use Rattle.local_moves.specs.Sequences.{IsLater, IsSequence, IsStopBoard, NoSwap};

use crate::loads::{Loads, accept};
use carp_base::Memory;
use ruin_recreate::Board;
use std::alloc::Global;

// The sequence with the services at two places changed over, if that is better.
fn try_swap(
    alloc: Global,
    board: &Board,
    sequence: &[u32],
    first: usize,
    second: usize,
) -> Result<Option<Vec<u32>>, Memory>
    requires board { IsStopBoard board.now }
    requires sequence { IsSequence board.now sequence.now }
    requires after_first { 1 ≤ first }
    requires order { first < second }
    requires before_last { second + 1 < length sequence.now }
    ensures { IfOk result (λ found. MatchOption found (NoSwap board.now sequence.now first second) (λ next. IsLater board.now sequence.now next.items)) }
{
    let x = sequence[first];
    let y = sequence[second];
    if x == 0 || y == 0 {
        return Ok(None);
    }
    let before = sequence[first - 1];
    let after = sequence[second + 1];
    // The stops between the two, after the first is changed
    let next = sequence[first + 1];
    let last = if first + 1 == second {
        y
    } else {
        sequence[second - 1]
    };
    let old = board.between(before, x)
        + board.between(x, next)
        + board.between(last, y)
        + board.between(y, after);
    let new = board.between(before, y)
        + board.between(y, next)
        + board.between(last, x)
        + board.between(x, after);
    if new >= old {
        return Ok(None);
    }
    let mut changed = Vec::from_slice(alloc, sequence)?;
    changed[first] = y;
    changed[second] = x;
    Ok(accept(board, changed))
}

// Whether each of the services at two places fits in place of the other one, if these places are in two tours.
fn swap_fits(board: &Board, sequence: &[u32], loads: &Loads, first: usize, second: usize) -> bool
    requires board { IsStopBoard board.now }
    requires sequence { IsSequence board.now sequence.now }
    requires loads { AreLoads board.now sequence.now loads.now }
    requires after_first { 1 ≤ first }
    requires before_last { second + 1 < length sequence.now }
    requires apart { AreApart sequence.now first second }
    ensures { result ≡ false → NoSwap board.now sequence.now first second }
{
    loads.has_room(board, first, first + 1, sequence[second])
        && loads.has_room(board, second, second + 1, sequence[first])
}

// A swap of the service at a place with a later one that is better, if there is one.
pub(crate) fn find_partner(
    alloc: Global,
    board: &Board,
    sequence: &[u32],
    loads: &Loads,
    first: usize,
) -> Result<Option<Vec<u32>>, Memory>
    requires board { IsStopBoard board.now }
    requires sequence { IsSequence board.now sequence.now }
    requires loads { AreLoads board.now sequence.now loads.now }
    requires after_first { 1 ≤ first }
    requires before_last { first + 1 < length sequence.now }
    ensures { IfOk result (λ found. MatchOption found ((second : ℕ) → first < second → second + 1 < length sequence.now → NoSwap board.now sequence.now first second) (λ next. IsLater board.now sequence.now next.items)) }
{
    let mut apart = false;
    for second in first + 1..sequence.len() - 1 {
        if sequence[second] == 0 {
            apart = true;
        } else if !apart || swap_fits(board, sequence, loads, first, second) {
            if let Some(next) = try_swap(alloc, board, sequence, first, second)? {
                return Ok(Some(next));
            }
        }
    }
    Ok(None)
}
