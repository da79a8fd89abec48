// Changes until no change is better.
ghost use Rattle.std.specs.Prelude.{◌≡◌, ◌≤◌, ◌<◌, ◌-◌, ◌↔◌, IfOk, IsTrue, length, slice_index};
ghost use Rattle.local_moves.specs.Sequences.{IsNoDearer, IsSequence, IsSettledSequence, IsStopBoard, NoneEmpty, fits};

use crate::searching::find_change;
use carp_base::Memory;
use ruin_recreate::Board;
use std::alloc::Global;

// Whether a tour without service ends at a place.
fn ends_empty(sequence: &[u32], at: usize) -> bool
    requires after_first { 1 ≤ at }
    requires within { at < length sequence.now }
    ensures { IsTrue result ↔ ((slice_index sequence.now (at - 1) ≡ 0) × (slice_index sequence.now at ≡ 0)) }
{
    sequence[at - 1] == 0 && sequence[at] == 0
}

// Takes out tours without service.
fn close_up(board: &Board, sequence: Vec<u32>) -> Vec<u32>
    requires board { IsStopBoard board.now }
    requires sequence { IsSequence board.now sequence.items }
    requires fits { IsTrue (fits board.now sequence.items) }
    ensures no_dearer { IsNoDearer board.now sequence.items result.items }
    ensures closed { NoneEmpty result.items }
{
    let mut closed = sequence;
    let mut at = 1;
    while at < closed.len() {
        if ends_empty(&closed, at) {
            closed.remove(at);
        } else {
            at += 1;
        }
    }
    closed
}

// A sequence that no change makes better, and that costs no more, with the same services and no tour without one.
pub(crate) fn settle_sequence(
    alloc: Global,
    board: &Board,
    sequence: Vec<u32>,
) -> Result<Vec<u32>, Memory>
    requires board { IsStopBoard board.now }
    requires sequence { IsSequence board.now sequence.items }
    requires fits { IsTrue (fits board.now sequence.items) }
    ensures settled { IfOk result (λ after. IsSettledSequence board.now after.items) }
    ensures no_dearer { IfOk result (λ after. IsNoDearer board.now sequence.items after.items) }
    ensures closed { IfOk result (λ after. NoneEmpty after.items) }
{
    let mut at = close_up(board, sequence);
    let mut place = 1;
    while let Some(next) = find_change(alloc, board, &at, place)? {
        place = next.place;
        at = close_up(board, next.sequence);
    }
    Ok(at)
}
