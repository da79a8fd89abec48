// Putting services back by regret (Potvin and Rousseau 1993; Ropke and Pisinger 2006): the service goes first that costs the
// most more in its second best tour than in its best one, since others could take the room that only it needs.
ghost use Rattle.std.specs.Prelude.{◌≡◌, ◌<◌, OnOk, length};
ghost use Rattle.ruin_recreate.specs.Boards.{IsBoard};
ghost use Rattle.ruin_recreate.specs.Annealing.{AreOn, AreOut, IsSequenceOn};

use crate::board::Board;
use crate::recreating::{Offer, Seat, TOO_DEAR, offer_of, own_cost, service_at, take_seat};
use crate::ruining::Removed;
use crate::sequences::Sequence;
use carp_base::Memory;
use std::alloc::Global;

// What a service costs at the best seat of a tour, and that seat: its place counts from the first connection of the tour, so that
// it stays right if other tours grow.
#[derive(Clone, Copy)]
struct Bid {
    cost: u64,
    place: u32,
    turned: bool,
}

impl Bid {
    fn of(offer: Offer) -> Bid {
        match offer.seat {
            Some(seat) => Bid {
                cost: offer.cost,
                place: u32::try_from(seat.place).unwrap_or(u32::MAX),
                turned: seat.turned,
            },
            None => Bid {
                cost: TOO_DEAR,
                place: 0,
                turned: false,
            },
        }
    }
}

// A service that is out, what it costs in a tour of its own, and where its bids begin.
#[derive(Clone, Copy)]
pub(crate) struct Out {
    pub(crate) stop: u32,
    own: u64,
    first: usize,
}

// How much more a service costs in its second best tour than in its best one, and that best one; none is a tour of its own.
// If no other tour can take it, a tour of its own is the second one too.
fn regret_of(own: u64, bids: &[Bid]) -> (u64, Option<usize>) {
    let (mut least, mut second, mut best) = (own, TOO_DEAR, None);
    for (tour, bid) in bids.iter().enumerate() {
        if bid.cost < least {
            second = least;
            least = bid.cost;
            best = Some(tour);
        } else if bid.cost < second {
            second = bid.cost;
        }
    }
    if second == TOO_DEAR {
        second = own;
    }
    (second.saturating_sub(least), best)
}

// Looks up again what the services that are out cost in a tour.
fn renew(
    board: &Board,
    costs: &[u32],
    sequence: &Sequence,
    price: u64,
    tour: usize,
    out: &[Out],
    bids: &mut [Bid],
)
    requires board { IsBoard board.now }
    requires costs { length costs.now ≡ board.now.width }
    requires sequence { IsSequenceOn board.now.width sequence.now }
    requires out { AreOut board.now.width out.now }
{
    for service in out {
        let offer = offer_of(
            board,
            sequence,
            service_at(board, costs, service.stop),
            price,
            tour,
        );
        if let Some(bid) = bids.get_mut(service.first.saturating_add(tour)) {
            *bid = Bid::of(offer);
        }
    }
}

// The services that are out, and the bids for each: one for each tour, and one for each tour that may be opened.
#[derive(Drop)]
pub(crate) struct Regret {
    bids: Vec<Bid>,
    out: Vec<Out>,
}

impl Regret {
    pub(crate) fn new(alloc: Global) -> Regret {
        Regret {
            bids: Vec::new(alloc),
            out: Vec::new(alloc),
        }
    }

    // The bids of so many tours, from a place on.
    fn row(&self, first: usize, tours: usize) -> &[Bid] {
        let end = first.saturating_add(tours);
        if end > self.bids.len() {
            return &[];
        }
        &self.bids[first..end]
    }

    // The seat for a service in a tour.
    fn seat(&self, first: usize, tour: usize) -> Option<Seat> {
        let bid = self.bids.get(first.saturating_add(tour))?;
        Some(Seat {
            tour,
            place: bid.place as usize,
            turned: bid.turned,
        })
    }

    // Adds a service with its bids; they are too dear where there is no tour yet.
    fn add(
        &mut self,
        board: &Board,
        costs: &[u32],
        sequence: &Sequence,
        price: u64,
        stop: u32,
        width: usize,
    ) -> Result<(), Memory>
        requires board { IsBoard board.now }
        requires costs { length costs.now ≡ board.now.width }
        requires sequence { IsSequenceOn board.now.width sequence.now }
        requires stop { stop < board.now.width }
        requires out { AreOut board.now.width self.old.out.items }
        ensures { OnOk result (AreOut board.now.width self.new.out.items) }
    {
        let service = service_at(board, costs, stop);
        self.out.push(Out {
            stop,
            own: own_cost(service),
            first: self.bids.len(),
        })?;
        for tour in 0..width {
            let bid = Bid::of(offer_of(board, sequence, service, price, tour));
            self.bids.push(bid)?;
        }
        Ok(())
    }

    // Notes which services are out, and their bids.
    fn lay_out(
        &mut self,
        board: &Board,
        costs: &[u32],
        sequence: &Sequence,
        price: u64,
        removed: &[Removed],
    ) -> Result<(), Memory>
        requires board { IsBoard board.now }
        requires costs { length costs.now ≡ board.now.width }
        requires sequence { IsSequenceOn board.now.width sequence.now }
        requires within { AreOn board.now.width removed.now }
        ensures { OnOk result (AreOut board.now.width self.new.out.items) }
    {
        self.bids.clear();
        self.out.clear();
        let width = sequence.tours.len().saturating_add(removed.len());
        for service in removed {
            self.add(board, costs, sequence, price, service.stop, width)?;
        }
        Ok(())
    }

    // The place of the service with the greatest regret among those that are out, the first of equals, and its tour.
    fn choose(&self, tours: usize) -> (usize, Option<usize>) {
        let (mut place, mut best, mut most) = (0, None, 0);
        for (k, service) in self.out.iter().enumerate() {
            let (regret, tour) = regret_of(service.own, self.row(service.first, tours));
            if k == 0 || regret > most {
                (place, best, most) = (k, tour, regret);
            }
        }
        (place, best)
    }

    // Puts services back, each time the one with the greatest regret, where it costs least.
    pub(crate) fn put_back(
        &mut self,
        board: &Board,
        costs: &[u32],
        sequence: &mut Sequence,
        price: u64,
        removed: &[Removed],
    ) -> Result<(), Memory>
        requires board { IsBoard board.now }
        requires costs { length costs.now ≡ board.now.width }
        requires sequence { IsSequenceOn board.now.width sequence.old }
        requires within { AreOn board.now.width removed.now }
        ensures { OnOk result (IsSequenceOn board.now.width sequence.new) }
    {
        self.lay_out(board, costs, sequence, price, removed)?;
        for _ in 0..removed.len() {
            let (place, tour) = self.choose(sequence.tours.len());
            if place >= self.out.len() {
                break;
            }
            let service = self.out.swap_remove(place);
            let seat = match tour {
                Some(tour) => self.seat(service.first, tour),
                None => None,
            };
            take_seat(board, sequence, service.stop, seat)?;
            let grown = match seat {
                Some(seat) => seat.tour,
                None => sequence.tours.len().saturating_sub(1),
            };
            renew(
                board,
                costs,
                sequence,
                price,
                grown,
                &self.out,
                &mut self.bids,
            );
        }
        Ok(())
    }
}
