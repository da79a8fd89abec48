// Moves of one service to another place.
ghost use Rattle.std.specs.Prelude.{◌≡◌, ◌≢◌, ℕ, ◌<◌, ◌≤◌, ◌+◌, IfOk, MatchOption, length, slice_index};
ghost use Rattle.std.specs.List.{remove};
ghost use Rattle.ruin_recreate.specs.Boards.{edge_of, turned};
ghost use Rattle.local_moves.specs.Loads.{AreLoads};
ghost use Rattle.local_moves.specs.Sequences.{IsLater, IsSequence, IsService, IsStopBoard, NoInsert, NoMove};

use crate::loads::{Loads, accept};
use carp_base::Memory;
use ruin_recreate::Board;
use std::alloc::Global;

// The service of the same edge in the other direction.
pub(crate) fn turn(board: &Board, x: u32) -> u32
    requires board { IsStopBoard board.now }
    requires x { x < board.now.width }
    requires service { 1 ≤ x }
    requires real { x ≢ 1 }
    ensures value { result ≡ turned board.now x }
    ensures within { result < board.now.width }
    ensures real { result ≢ 1 }
    ensures edge { edge_of result ≡ edge_of x }
{
    board.turn(x)
}

// The sequence with a service taken from its place and put, as `x`, to a place of the rest, if that is better.
fn try_insert(
    alloc: Global,
    board: &Board,
    sequence: &[u32],
    rest: &[u32],
    loads: &Loads,
    from: usize,
    x: u32,
    to: usize,
) -> Result<Option<Vec<u32>>, Memory>
    requires board { IsStopBoard board.now }
    requires sequence { IsSequence board.now sequence.now }
    requires service { IsService sequence.now from }
    requires rest { rest.now ≡ remove sequence.now from }
    requires rest_sequence { IsSequence board.now rest.now }
    requires loads { AreLoads board.now rest.now loads.now }
    requires x { x < board.now.width }
    requires real { x ≢ 1 }
    requires some { 1 ≤ x }
    requires edge { edge_of x ≡ edge_of (slice_index sequence.now from) }
    requires to_first { 1 ≤ to }
    requires to_last { to < length rest.now }
    ensures { IfOk result (λ found. MatchOption found (NoInsert board.now sequence.now from x to) (λ next. IsLater board.now sequence.now next.items)) }
{
    if !loads.has_room(board, to, to, x) {
        return Ok(None);
    }
    let old = board.between(sequence[from - 1], sequence[from])
        + board.between(sequence[from], sequence[from + 1])
        + board.between(rest[to - 1], rest[to]);
    let new = board.between(sequence[from - 1], sequence[from + 1])
        + board.between(rest[to - 1], x)
        + board.between(x, rest[to]);
    if new >= old {
        return Ok(None);
    }
    let mut changed = Vec::from_slice(alloc, rest)?;
    changed.insert(to, x)?;
    Ok(accept(board, changed))
}

// The same over all places of the rest.
fn find_place(
    alloc: Global,
    board: &Board,
    sequence: &[u32],
    rest: &[u32],
    loads: &Loads,
    from: usize,
    x: u32,
) -> Result<Option<Vec<u32>>, Memory>
    requires board { IsStopBoard board.now }
    requires sequence { IsSequence board.now sequence.now }
    requires service { IsService sequence.now from }
    requires rest { rest.now ≡ remove sequence.now from }
    requires rest_sequence { IsSequence board.now rest.now }
    requires loads { AreLoads board.now rest.now loads.now }
    requires x { x < board.now.width }
    requires real { x ≢ 1 }
    requires some { 1 ≤ x }
    requires edge { edge_of x ≡ edge_of (slice_index sequence.now from) }
    ensures { IfOk result (λ found. MatchOption found ((to : ℕ) → 1 ≤ to → to < length rest.now → NoInsert board.now sequence.now from x to) (λ next. IsLater board.now sequence.now next.items)) }
{
    for to in 1..rest.len() {
        if let Some(next) = try_insert(alloc, board, sequence, rest, loads, from, x, to)? {
            return Ok(Some(next));
        }
    }
    Ok(None)
}

// A move of the service at a place that is better, if there is one.
pub(crate) fn try_move(
    alloc: Global,
    board: &Board,
    sequence: &[u32],
    from: usize,
) -> Result<Option<Vec<u32>>, Memory>
    requires board { IsStopBoard board.now }
    requires sequence { IsSequence board.now sequence.now }
    requires after_first { 1 ≤ from }
    requires before_last { from + 1 < length sequence.now }
    ensures { IfOk result (λ found. MatchOption found (NoMove board.now sequence.now from) (λ next. IsLater board.now sequence.now next.items)) }
{
    let x = sequence[from];
    if x == 0 {
        return Ok(None);
    }
    let mut rest = Vec::from_slice(alloc, sequence)?;
    rest.remove(from);
    let loads = Loads::of(alloc, board, &rest)?;
    if let Some(next) = find_place(alloc, board, sequence, &rest, &loads, from, x)? {
        return Ok(Some(next));
    }
    find_place(alloc, board, sequence, &rest, &loads, from, turn(board, x))
}
