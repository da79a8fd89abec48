// The search for a change that is better.
ghost use Rattle.std.specs.Prelude.{ℕ, ◌<◌, ◌≤◌, ◌+◌, IfOk, MatchOption, length};
ghost use Rattle.local_moves.specs.Loads.{AreLoads};
ghost use Rattle.local_moves.specs.Sequences.{IsLater, IsQuiet, IsSequence, IsSettledSequence, IsStopBoard};

use crate::loads::Loads;
use crate::moves::try_move;
use crate::opening::try_open;
use crate::swaps::find_partner;
use carp_base::Memory;
use ruin_recreate::Board;
use std::alloc::Global;

// A sequence after a change, and the place of the service that it began with.
#[derive(Drop)]
pub(crate) struct Change {
    pub(crate) sequence: Vec<u32>,
    pub(crate) place: usize,
}

// A change of the service at a place, or a swap with a later one, that is better, if there is one.
fn improve_at(
    alloc: Global,
    board: &Board,
    sequence: &[u32],
    loads: &Loads,
    at: usize,
) -> Result<Option<Vec<u32>>, Memory>
    requires board { IsStopBoard board.now }
    requires sequence { IsSequence board.now sequence.now }
    requires loads { AreLoads board.now sequence.now loads.now }
    requires after_first { 1 ≤ at }
    requires before_last { at + 1 < length sequence.now }
    ensures { IfOk result (λ found. MatchOption found (IsQuiet board.now sequence.now at) (λ next. IsLater board.now sequence.now next.items)) }
{
    if let Some(next) = try_move(alloc, board, sequence, at)? {
        return Ok(Some(next));
    }
    if let Some(next) = try_open(alloc, board, sequence, at)? {
        return Ok(Some(next));
    }
    find_partner(alloc, board, sequence, loads, at)
}

// The first such change at one of the places from one number to below another.
fn search(
    alloc: Global,
    board: &Board,
    sequence: &[u32],
    loads: &Loads,
    from: usize,
    to: usize,
) -> Result<Option<Change>, Memory>
    requires board { IsStopBoard board.now }
    requires sequence { IsSequence board.now sequence.now }
    requires loads { AreLoads board.now sequence.now loads.now }
    requires from { 1 ≤ from }
    requires to { to + 1 ≤ length sequence.now }
    ensures { IfOk result (λ found. MatchOption found ((at : ℕ) → from ≤ at → at < to → IsQuiet board.now sequence.now at) (λ next. IsLater board.now sequence.now next.sequence.items)) }
{
    for place in from..to {
        if let Some(sequence) = improve_at(alloc, board, sequence, loads, place)? {
            return Ok(Some(Change { sequence, place }));
        }
    }
    Ok(None)
}

// A change that is better, if there is one, sought from a place on to the end, and then from the beginning.
pub(crate) fn find_change(
    alloc: Global,
    board: &Board,
    sequence: &[u32],
    start: usize,
) -> Result<Option<Change>, Memory>
    requires board { IsStopBoard board.now }
    requires sequence { IsSequence board.now sequence.now }
    ensures { IfOk result (λ found. MatchOption found (IsSettledSequence board.now sequence.now) (λ next. IsLater board.now sequence.now next.sequence.items)) }
{
    let loads = Loads::of(alloc, board, sequence)?;
    let end = sequence.len() - 1;
    let start = start.max(1);
    if let Some(next) = search(alloc, board, sequence, &loads, start, end)? {
        return Ok(Some(next));
    }
    search(alloc, board, sequence, &loads, 1, start.min(end))
}
