// Sequences as the connections between the stops that follow each other.
ghost use Rattle.std.specs.Prelude.{◌≡◌, ◌+◌, ◌/◌, ◌<◌, ◌≤◌, [], IfOk, OnOk, length};
ghost use Rattle.std.specs.List.{All};
ghost use Rattle.ruin_recreate.specs.Boards.{IsBoard};
ghost use Rattle.ruin_recreate.specs.Annealing.{IsConnectionOn, IsSequenceOn};

use crate::board::Board;
use carp_base::Memory;
use std::alloc::Global;

// Two stops that follow each other, and the link between them.
#[derive(Clone, Copy)]
pub(crate) struct Connection {
    // The first one, in its other direction. The link from the first one to a service is that from the service, in its
    // other direction, to this stop. So it stands in a row of the service.
    pub(crate) turned: u32,
    pub(crate) to: u32,
    pub(crate) price: u32,
}

impl Connection {
    // The connections before and behind a stop that is put in between.
    fn halves(self, board: &Board, stop: u32) -> (Connection, Connection)
        requires board { IsBoard board.now }
        requires connection { IsConnectionOn board.now.width self }
        requires stop { stop < board.now.width }
        ensures before { IsConnectionOn board.now.width result.0 }
        ensures behind { IsConnectionOn board.now.width result.1 }
    {
        let turned = board.turn(stop);
        let before = Connection {
            turned: self.turned,
            to: stop,
            price: board.between(turned, self.turned),
        };
        let behind = Connection {
            turned,
            to: self.to,
            price: board.between(stop, self.to),
        };
        (before, behind)
    }
}

#[derive(Clone, Copy)]
pub(crate) struct Tour {
    // The place of its first connection.
    pub(crate) first: usize,
    pub(crate) load: u32,
}

// Tours one after another, from the depot to the depot, as the list of their connections. No sum comes near the end of
// its type. Sums saturate, so that this need not be proved.
#[derive(Drop)]
pub(crate) struct Sequence {
    pub(crate) connections: Vec<Connection>,
    pub(crate) tours: Vec<Tour>,
    pub(crate) deadheads: u64,
    // The last stop, in its other direction.
    last: u32,
    // The tour that the last stop is in.
    tour: Tour,
}

impl Sequence {
    // A sequence without tours, with space for the services of a board.
    pub(crate) fn new(alloc: Global, width: usize) -> Result<Sequence, Memory>
        requires { 1 ≤ width }
        ensures { IfOk result (IsSequenceOn width) }
    {
        Ok(Sequence {
            connections: Vec::with_capacity(alloc, width)?,
            tours: Vec::with_capacity(alloc, width)?,
            deadheads: 0,
            last: 0,
            tour: Tour { first: 0, load: 0 },
        })
    }

    fn clear(&mut self)
        ensures connections { self.new.connections.items ≡ [] }
        ensures last { self.new.last ≡ 0 }
    {
        self.connections.clear();
        self.tours.clear();
        self.deadheads = 0;
        self.last = 0;
    }

    // The link from the last stop to another.
    fn reach(&self, board: &Board, to: u32) -> u32
        requires board { IsBoard board.now }
        requires last { self.now.last < board.now.width }
        requires to { to < board.now.width }
    {
        board.between(board.turn(self.last), to)
    }

    // Goes on to a stop, at this price. From the depot to the depot it stays.
    fn follow(&mut self, board: &Board, to: u32, price: u32) -> Result<(), Memory>
        requires board { IsBoard board.now }
        requires sequence { IsSequenceOn board.now.width self.old }
        requires to { to < board.now.width }
        ensures { OnOk result (IsSequenceOn board.now.width self.new) }
    {
        if to != 0 {
            if self.last == 0 {
                self.tour = Tour {
                    first: self.connections.len(),
                    load: 0,
                };
            }
            self.tour.load = self.tour.load.saturating_add(board.demand(to));
        } else if self.last == 0 {
            return Ok(());
        } else {
            self.tours.push(self.tour)?;
        }
        self.connections.push(Connection {
            turned: self.last,
            to,
            price,
        })?;
        self.deadheads = self.deadheads.saturating_add(u64::from(price));
        self.last = board.turn(to);
        Ok(())
    }

    // The sequence of these stops.
    pub(crate) fn read(&mut self, board: &Board, stops: &[u32]) -> Result<(), Memory>
        requires board { IsBoard board.now }
        requires within { All (λ x. x < board.now.width) stops.now }
        ensures { OnOk result (IsSequenceOn board.now.width self.new) }
    {
        self.clear();
        for &to in stops {
            self.follow(board, to, self.reach(board, to))?;
        }
        self.follow(board, 0, self.reach(board, 0))
    }

    // Writes the stops of the sequence, in place of what stood there.
    pub(crate) fn write(&self, board: &Board, stops: &mut Vec<u32>) -> Result<(), Memory>
        requires board { IsBoard board.now }
        requires sequence { IsSequenceOn board.now.width self.now }
        ensures { OnOk result (All (λ x. x < board.now.width) stops.new.items) }
    {
        stops.clear();
        stops.push(0)?;
        for connection in &self.connections {
            stops.push(connection.to)?;
        }
        Ok(())
    }

    // A tour of its own at the end.
    pub(crate) fn open_tour(&mut self, board: &Board, stop: u32) -> Result<(), Memory>
        requires board { IsBoard board.now }
        requires sequence { IsSequenceOn board.now.width self.old }
        requires stop { stop < board.now.width }
        ensures { OnOk result (IsSequenceOn board.now.width self.new) }
    {
        self.follow(board, stop, self.reach(board, stop))?;
        self.follow(board, 0, self.reach(board, 0))
    }

    // One tour for each service, forward.
    pub(crate) fn scatter(&mut self, board: &Board) -> Result<(), Memory>
        requires board { IsBoard board.now }
        ensures { OnOk result (IsSequenceOn board.now.width self.new) }
    {
        self.clear();
        for edge in 1..board.edges() + 1 {
            self.open_tour(board, 2 * edge)?;
        }
        Ok(())
    }

    // The sequence without the services of some edges.
    pub(crate) fn rest(
        &mut self,
        board: &Board,
        sequence: &Sequence,
        gone: &[bool],
    ) -> Result<(), Memory>
        requires board { IsBoard board.now }
        requires sequence { IsSequenceOn board.now.width sequence.now }
        requires gone { length gone.now ≡ board.now.width / 2 + 1 }
        ensures { OnOk result (IsSequenceOn board.now.width self.new) }
    {
        self.clear();
        for connection in &sequence.connections {
            if gone[connection.to as usize / 2] {
                continue;
            }
            let price = if connection.turned == self.last {
                connection.price
            } else {
                self.reach(board, connection.to)
            };
            self.follow(board, connection.to, price)?;
        }
        Ok(())
    }

    // The place of the first connection of a tour, or one behind all connections if there is no such tour.
    pub(crate) fn start(&self, tour: usize) -> usize {
        match self.tours.get(tour) {
            Some(found) => found.first,
            None => usize::MAX,
        }
    }

    // The place behind the last connection of a tour.
    pub(crate) fn end(&self, tour: usize) -> usize
        ensures { result ≤ length self.now.connections.items }
    {
        match self.tours.get(tour.saturating_add(1)) {
            Some(next) => next.first.min(self.connections.len()),
            None => self.connections.len(),
        }
    }

    // Puts a stop into a connection of a tour.
    pub(crate) fn insert(
        &mut self,
        board: &Board,
        stop: u32,
        tour: usize,
        place: usize,
    ) -> Result<(), Memory>
        requires board { IsBoard board.now }
        requires sequence { IsSequenceOn board.now.width self.old }
        requires stop { stop < board.now.width }
        ensures { OnOk result (IsSequenceOn board.now.width self.new) }
    {
        if place >= self.connections.len() || tour >= self.tours.len() {
            return Ok(());
        }
        let connection = self.connections[place];
        let (before, behind) = connection.halves(board, stop);
        self.connections[place] = before;
        self.connections.insert(place + 1, behind)?;
        let rise = u64::from(before.price) + u64::from(behind.price);
        self.deadheads = self
            .deadheads
            .saturating_add(rise)
            .saturating_sub(u64::from(connection.price));
        self.add_load(tour, board.demand(stop));
        Ok(())
    }

    // Adds to the load of a tour, and moves the later tours by one place.
    fn add_load(&mut self, tour: usize, demand: u32)
        requires { tour < length self.old.tours.items }
        ensures connections { self.new.connections ≡ self.old.connections }
        ensures last { self.new.last ≡ self.old.last }
    {
        self.tours[tour].load = self.tours[tour].load.saturating_add(demand);
        for later in tour + 1..self.tours.len() {
            self.tours[later].first = self.tours[later].first.saturating_add(1);
        }
    }

    // The load above the room, over all tours.
    pub(crate) fn excess(&self, room: u32) -> u64 {
        let mut excess: u64 = 0;
        for tour in &self.tours {
            excess = excess.saturating_add(u64::from(tour.load.saturating_sub(room)));
        }
        excess
    }
}
