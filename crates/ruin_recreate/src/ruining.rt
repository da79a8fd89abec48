// Takes strings of services out of the tours near one another.
ghost use Rattle.std.specs.Prelude.{◌≡◌, ◌+◌, ◌/◌, ◌<◌, ◌≤◌, IfOk, OnOk, length};
ghost use Rattle.ruin_recreate.specs.Boards.{IsBoard};
ghost use Rattle.ruin_recreate.specs.Annealing.{IsSequenceOn, IsRuinOn};

use crate::board::Board;
use crate::draws::draw;
use crate::neighbours::Neighbours;
use crate::sequences::Sequence;
use carp_base::Memory;
use rand_pcg::Lcg64Xsh32;
use std::alloc::Global;

// The greatest length of a string.
const LONGEST: u32 = 5;

// How many services are taken out on average.
const AVERAGE: u32 = 10;

// A service that is taken out, with the number by which it is sorted.
#[derive(Clone, Copy)]
pub(crate) struct Removed {
    pub(crate) stop: u32,
    pub(crate) key: u32,
}

// Notes where each edge is served: the place of the connection before it.
pub(crate) fn locate(sequence: &Sequence, places: &mut [usize]) {
    for (place, connection) in sequence.connections.iter().enumerate() {
        if let Some(noted) = places.get_mut(connection.to as usize / 2) {
            *noted = place;
        }
    }
}

// The greatest length of a string: no more than a tour serves on average.
fn longest(board: &Board, sequence: &Sequence) -> u32
    requires { IsBoard board.now }
    ensures some { 1 ≤ result }
    ensures few { result ≤ 5 }
{
    let tours = u32::try_from(sequence.tours.len())
        .unwrap_or(u32::MAX)
        .max(1);
    (board.edges() / tours).clamp(1, LONGEST)
}

// The greatest number of strings of that length.
fn strings(longest: u32) -> u32
    requires { longest ≤ 5 }
    ensures { 1 ≤ result }
{
    (4 * AVERAGE / (1 + longest)).max(2) - 1
}

// What is taken out of a sequence.
#[derive(Drop)]
pub(crate) struct Ruin {
    // Where each edge is served: the place of the connection before it.
    pub(crate) places: Vec<usize>,
    // Which edges are taken out.
    pub(crate) gone: Vec<bool>,
    // Their services, as they stood in the sequence.
    pub(crate) removed: Vec<Removed>,
}

impl Ruin {
    pub(crate) fn new(alloc: Global, width: usize) -> Result<Ruin, Memory>
        ensures { IfOk result (IsRuinOn width) }
    {
        Ok(Ruin {
            places: vec![in alloc; 0; width / 2 + 1]?,
            gone: vec![in alloc; false; width / 2 + 1]?,
            removed: Vec::with_capacity(alloc, width)?,
        })
    }

    // Where a string begins: so many services before an edge, or at the start of its tour.
    fn start(&self, sequence: &Sequence, edge: u32, back: u32) -> usize
        requires { edge < length self.now.places.items }
    {
        let mut place = self.places[edge as usize];
        for _ in 0..back {
            if place == 0
                || place > sequence.connections.len()
                || sequence.connections[place - 1].to == 0
            {
                break;
            }
            place -= 1;
        }
        place
    }

    // Takes out a string of services round an edge.
    fn take_string(
        &mut self,
        board: &Board,
        sequence: &Sequence,
        edge: u32,
        generator: &mut Lcg64Xsh32,
    ) -> Result<(), Memory>
        requires board { IsBoard board.now }
        requires ruin { IsRuinOn board.now.width self.old }
        requires sequence { IsSequenceOn board.now.width sequence.now }
        requires edge { edge < board.now.width / 2 + 1 }
        ensures { OnOk result (IsRuinOn board.now.width self.new) }
    {
        let length = 1 + draw(generator, longest(board, sequence));
        let back = draw(generator, length);
        let first = self.start(sequence, edge, back);
        let end = first
            .saturating_add(length as usize)
            .min(sequence.connections.len());
        for place in first..end {
            let stop = sequence.connections[place].to;
            if stop == 0 {
                break;
            }
            if !self.gone[stop as usize / 2] {
                self.gone[stop as usize / 2] = true;
                self.removed.push(Removed { stop, key: 0 })?;
            }
        }
        Ok(())
    }

    // Takes strings out of the tours of an edge and of its neighbours, a fourth of which is passed over.
    pub(crate) fn take_out(
        &mut self,
        board: &Board,
        sequence: &Sequence,
        near: &[Neighbours],
        generator: &mut Lcg64Xsh32,
    ) -> Result<(), Memory>
        requires board { IsBoard board.now }
        requires ruin { IsRuinOn board.now.width self.old }
        requires sequence { IsSequenceOn board.now.width sequence.now }
        requires some { 4 ≤ board.now.width }
        requires near { length near.now ≡ board.now.width / 2 }
        ensures { OnOk result (IsRuinOn board.now.width self.new) }
    {
        let mut left = draw(generator, strings(longest(board, sequence)));
        let seed = 1 + draw(generator, board.edges());
        self.removed.clear();
        self.take_string(board, sequence, seed, generator)?;
        for &edge in &near[seed as usize] {
            // Each neighbour is an edge of the board: to test that costs less than to say so of each list.
            if left == 0 || edge == 0 || edge as usize >= self.gone.len() {
                break;
            }
            if self.gone[edge as usize] || draw(generator, 16) < 4 {
                continue;
            }
            self.take_string(board, sequence, edge, generator)?;
            left -= 1;
        }
        Ok(())
    }

    // Notes that no edge is out: what was taken out is about to be put back.
    pub(crate) fn unmark(&mut self, board: &Board)
        requires board { IsBoard board.now }
        requires ruin { IsRuinOn board.now.width self.old }
        ensures { IsRuinOn board.now.width self.new }
    {
        for i in 0..self.removed.len() {
            self.gone[self.removed[i].stop as usize / 2] = false;
        }
    }
}
