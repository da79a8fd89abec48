// What tours load beside a place, so that a change that does not fit is known before it is made.
ghost use Rattle.std.specs.Prelude.{◌≡◌, ◌+◌, ◌<◌, ◌≤◌, ◌↔◌, IfOk, IsTrue, MatchOption, length, slice_index};
ghost use Rattle.std.specs.List.{All};
ghost use Rattle.ruin_recreate.specs.Boards.{IsBoard, demand_of};
ghost use Rattle.local_moves.specs.Loads.{AreLoads, AreLoadsAhead, AreLoadsBehind, load_with};
ghost use Rattle.local_moves.specs.Sequences.{fits};

use carp_base::Memory;
use ruin_recreate::Board;
use std::alloc::Global;

// Loads are counted up to this number, which no room reaches.
const MOST_LOAD: u32 = 60_000;

// The loads of tours before and from each place of a sequence on, as far as they are counted.
#[derive(Drop)]
pub(crate) struct Loads {
    pub(crate) behind: Vec<u32>,
    pub(crate) ahead: Vec<u32>,
}

// The load once a stop was made too.
fn load_with(board: &Board, load: u32, x: u32) -> u32
    requires board { IsBoard board.now }
    requires x { x < board.now.width }
    requires load { load ≤ 60000 }
    ensures counted { result ≤ load_with board.now load x }
    ensures small { result ≤ 60000 }
{
    if x == 0 {
        0
    } else {
        (load + board.demand(x)).min(MOST_LOAD)
    }
}

fn loads_behind(alloc: Global, board: &Board, stops: &[u32]) -> Result<Vec<u32>, Memory>
    requires board { IsBoard board.now }
    requires within { All (λ x. x < board.now.width) stops.now }
    ensures { IfOk result (λ behind. AreLoadsBehind board.now stops.now (length stops.now + 1) behind.items) }
{
    let mut behind = Vec::with_capacity(alloc, stops.len())?;
    let mut load = 0;
    for i in 0..stops.len() {
        behind.push(load)?;
        load = load_with(board, load, stops[i]);
    }
    behind.push(load)?;
    Ok(behind)
}

fn loads_ahead(alloc: Global, board: &Board, stops: &[u32]) -> Result<Vec<u32>, Memory>
    requires board { IsBoard board.now }
    requires within { All (λ x. x < board.now.width) stops.now }
    ensures { IfOk result (λ ahead. AreLoadsAhead board.now stops.now 0 ahead.items) }
{
    let mut ahead = vec![in alloc; 0; stops.len() + 1]?;
    let mut load = 0;
    for i in (0..stops.len()).rev() {
        load = load_with(board, load, stops[i]);
        ahead[i] = load;
    }
    Ok(ahead)
}

impl Loads {
    // The loads beside the places of a sequence.
    pub(crate) fn of(alloc: Global, board: &Board, stops: &[u32]) -> Result<Loads, Memory>
        requires board { IsBoard board.now }
        requires within { All (λ x. x < board.now.width) stops.now }
        ensures { IfOk result (AreLoads board.now stops.now) }
    {
        Ok(Loads {
            behind: loads_behind(alloc, board, stops)?,
            ahead: loads_ahead(alloc, board, stops)?,
        })
    }

    // Whether a stop fits between the stops before a place and those from another on.
    pub(crate) fn has_room(&self, board: &Board, before: usize, from: usize, x: u32) -> bool
        requires board { IsBoard board.now }
        requires x { x < board.now.width }
        requires before { before < length self.now.behind.items }
        requires from { from < length self.now.ahead.items }
        requires behind_small { All (λ n. n ≤ 60000) self.now.behind.items }
        requires ahead_small { All (λ n. n ≤ 60000) self.now.ahead.items }
        ensures { IsTrue result ↔ (slice_index self.now.behind.items before + demand_of board.now x + slice_index self.now.ahead.items from ≤ board.now.room) }
    {
        self.behind[before] + board.demand(x) + self.ahead[from] <= board.room
    }
}

// Whether no tour of a sequence loads more than the room.
pub(crate) fn fits(board: &Board, sequence: &[u32]) -> bool
    requires board { IsBoard board.now }
    requires within { All (λ x. x < board.now.width) sequence.now }
    ensures { result ≡ fits board.now sequence.now }
{
    let mut load: u128 = 0;
    for i in 0..sequence.len() {
        let x = sequence[i];
        if x == 0 {
            if load > u128::from(board.room) {
                return false;
            }
            load = 0;
        } else {
            load += u128::from(board.demand(x));
        }
    }
    load <= u128::from(board.room)
}

// The sequence, if no tour of it loads more than the room.
pub(crate) fn accept(board: &Board, next: Vec<u32>) -> Option<Vec<u32>>
    requires board { IsBoard board.now }
    requires within { All (λ x. x < board.now.width) next.items }
    ensures { MatchOption result (IsTrue (fits board.now next.items) → ⊥) (λ same. (same.items ≡ next.items) × IsTrue (fits board.now next.items)) }
{
    if fits(board, &next) { Some(next) } else { None }
}
