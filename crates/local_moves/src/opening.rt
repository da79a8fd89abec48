// Moves of one service to a tour of its own.
ghost use Rattle.std.specs.Prelude.{◌≡◌, ◌≢◌, ◌<◌, ◌≤◌, ◌+◌, IfOk, MatchOption, length, slice_index, ◌∷◌, [], ◌++◌};
ghost use Rattle.std.specs.List.{remove};
ghost use Rattle.ruin_recreate.specs.Boards.{depot, edge_of};
ghost use Rattle.local_moves.specs.Sequences.{IsBetter, IsLater, IsSequence, IsService, IsStopBoard, NoOpen};

use crate::loads::accept;
use crate::moves::turn;
use carp_base::Memory;
use ruin_recreate::Board;
use std::alloc::Global;

// The sequence with a service taken out and put, as `x`, in a tour of its own at the end, if that is better.
fn try_alone(
    alloc: Global,
    board: &Board,
    sequence: &[u32],
    from: usize,
    x: u32,
) -> Result<Option<Vec<u32>>, Memory>
    requires board { IsStopBoard board.now }
    requires sequence { IsSequence board.now sequence.now }
    requires service { IsService sequence.now from }
    requires x { x < board.now.width }
    requires real { x ≢ 1 }
    requires edge { edge_of x ≡ edge_of (slice_index sequence.now from) }
    ensures { IfOk result (λ found. MatchOption found (IsBetter board.now sequence.now (remove sequence.now from ++ (x ∷ (depot ∷ []))) → ⊥) (λ next. IsLater board.now sequence.now next.items)) }
{
    let old = board.between(sequence[from - 1], sequence[from])
        + board.between(sequence[from], sequence[from + 1]);
    let new = board.between(sequence[from - 1], sequence[from + 1])
        + board.between(0, x)
        + board.between(x, 0);
    if new >= old {
        return Ok(None);
    }
    let mut changed = Vec::from_slice(alloc, sequence)?;
    changed.remove(from);
    changed.push(x)?;
    changed.push(0)?;
    Ok(accept(board, changed))
}

// A new tour for the service at a place that is better, if there is one.
pub(crate) fn try_open(
    alloc: Global,
    board: &Board,
    sequence: &[u32],
    from: usize,
) -> Result<Option<Vec<u32>>, Memory>
    requires board { IsStopBoard board.now }
    requires sequence { IsSequence board.now sequence.now }
    requires after_first { 1 ≤ from }
    requires before_last { from + 1 < length sequence.now }
    ensures { IfOk result (λ found. MatchOption found (NoOpen board.now sequence.now from) (λ next. IsLater board.now sequence.now next.items)) }
{
    let x = sequence[from];
    if x == 0 {
        return Ok(None);
    }
    if let Some(next) = try_alone(alloc, board, sequence, from, x)? {
        return Ok(Some(next));
    }
    try_alone(alloc, board, sequence, from, turn(board, x))
}
