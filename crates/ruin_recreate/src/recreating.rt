// Puts services back where they cost least.
ghost use Rattle.std.specs.Prelude.{◌≡◌, ◌^◌, ◌<◌, ◌≤◌, OnOk, length};
ghost use Rattle.std.specs.List.{All};
ghost use Rattle.ruin_recreate.specs.Boards.{IsBoard};
ghost use Rattle.ruin_recreate.specs.Annealing.{IsConnectionOn, IsSequenceOn};

use crate::board::Board;
use crate::sequences::{Connection, Sequence};
use carp_base::Memory;

// No service costs so much at a seat that it is offered.
pub(crate) const TOO_DEAR: u64 = 1 << 40;

// A service that is put back.
#[derive(Clone, Copy)]
pub(crate) struct Service<'a> {
    stop: u32,
    // The links from it to all stops, and the same of the service in its other direction.
    ahead: &'a [u32],
    back: &'a [u32],
    // What a crossing of its edge costs.
    crossing: u32,
}

// A connection of a tour, counted from the first connection of that tour, and whether the service goes there in its other direction.
#[derive(Clone, Copy)]
pub(crate) struct Seat {
    pub(crate) tour: usize,
    pub(crate) place: usize,
    pub(crate) turned: bool,
}

// A seat for a service, if there is one, and what it costs there: the deadheads that it adds, the fine for loads above
// the room, and a crossing of its edge. With that crossing the cost is never below 0. The way over the edge joins the
// ends of the connection, so it costs no less than the connection.
#[derive(Clone, Copy)]
pub(crate) struct Offer {
    pub(crate) cost: u64,
    pub(crate) seat: Option<Seat>,
}

// The service of a stop.
pub(crate) fn service_at<'a>(board: &'a Board, costs: &[u32], stop: u32) -> Service<'a>
    requires board { IsBoard board.now }
    requires costs { length costs.now ≡ board.now.width }
    requires stop { stop < board.now.width }
    ensures stop { result.stop ≡ stop }
    ensures ahead { length result.ahead.now ≡ board.now.width }
    ensures back { length result.back.now ≡ board.now.width }
{
    Service {
        stop,
        ahead: board.row(stop),
        back: board.row(board.turn(stop)),
        crossing: costs[stop as usize],
    }
}

// What a service costs in a tour of its own.
pub(crate) fn own_cost(service: Service) -> u64
    requires ahead { 1 ≤ length service.ahead.now }
    requires back { 1 ≤ length service.back.now }
    ensures { result < 2 ^ 34 }
{
    u64::from(service.ahead[0]) + u64::from(service.back[0]) + u64::from(service.crossing)
}

// What is paid for the load above the room that a demand adds to a tour.
fn fine(load: u32, demand: u32, room: u32, price: u64) -> u64 {
    let before = u64::from(load.max(room));
    let after = (u64::from(load) + u64::from(demand)).max(u64::from(room));
    price.saturating_mul(after - before) / 256
}

// The best of an offer and the connections of a tour, each of which costs so much besides its deadheads.
fn best_in_tour(
    connections: &[Connection],
    places: (usize, usize),
    service: Service,
    tour: usize,
    extra: u64,
    best: Offer,
) -> Offer
    requires ahead { All (IsConnectionOn (length service.ahead.now)) connections.now }
    requires back { length service.back.now ≡ length service.ahead.now }
    requires end { places.1 ≤ length connections.now }
    requires extra { extra ≤ 2 ^ 41 }
    requires best { best.cost ≤ 2 ^ 40 }
    ensures { result.cost ≤ 2 ^ 40 }
{
    let mut best = best;
    for place in places.0..places.1 {
        let connection = connections[place];
        let to = connection.to as usize;
        let turned = connection.turned as usize;
        let ahead = u64::from(service.ahead[to]) + u64::from(service.back[turned]);
        let back = u64::from(service.back[to]) + u64::from(service.ahead[turned]);
        let cost = ahead.min(back) + extra;
        if cost < best.cost + u64::from(connection.price) {
            best = Offer {
                cost: cost.saturating_sub(u64::from(connection.price)),
                seat: Some(Seat {
                    tour,
                    place: place - places.0,
                    turned: back < ahead,
                }),
            };
        }
    }
    best
}

// The best of an offer and a tour, if the fine by itself is less there than a limit.
fn best_with_tour(
    board: &Board,
    sequence: &Sequence,
    service: Service,
    price: u64,
    tour: usize,
    limit: u64,
    best: Offer,
) -> Offer
    requires board { IsBoard board.now }
    requires sequence { IsSequenceOn board.now.width sequence.now }
    requires stop { service.stop < board.now.width }
    requires ahead { length service.ahead.now ≡ board.now.width }
    requires back { length service.back.now ≡ board.now.width }
    requires limit { limit ≤ 2 ^ 40 }
    requires best { best.cost ≤ 2 ^ 40 }
    ensures { result.cost ≤ 2 ^ 40 }
{
    let Some(&open) = sequence.tours.get(tour) else {
        return best;
    };
    let fine = fine(open.load, board.demand(service.stop), board.room, price);
    if fine >= limit {
        return best;
    }
    let places = (open.first, sequence.end(tour));
    let extra = fine + u64::from(service.crossing);
    best_in_tour(&sequence.connections, places, service, tour, extra, best)
}

// The best seat for a service in a tour, if the fine by itself is less there than what a tour of its own costs.
pub(crate) fn offer_of(
    board: &Board,
    sequence: &Sequence,
    service: Service,
    price: u64,
    tour: usize,
) -> Offer
    requires board { IsBoard board.now }
    requires sequence { IsSequenceOn board.now.width sequence.now }
    requires stop { service.stop < board.now.width }
    requires ahead { length service.ahead.now ≡ board.now.width }
    requires back { length service.back.now ≡ board.now.width }
{
    let limit = own_cost(service);
    let none = Offer {
        cost: TOO_DEAR,
        seat: None,
    };
    best_with_tour(board, sequence, service, price, tour, limit, none)
}

// The best offer for a service: a tour of its own, or a seat in a tour whose fine by itself is less than the best so
// far.
fn best_offer(board: &Board, sequence: &Sequence, service: Service, price: u64) -> Offer
    requires board { IsBoard board.now }
    requires sequence { IsSequenceOn board.now.width sequence.now }
    requires stop { service.stop < board.now.width }
    requires ahead { length service.ahead.now ≡ board.now.width }
    requires back { length service.back.now ≡ board.now.width }
{
    let mut best = Offer {
        cost: own_cost(service),
        seat: None,
    };
    for tour in 0..sequence.tours.len() {
        best = best_with_tour(board, sequence, service, price, tour, best.cost, best);
    }
    best
}

// Puts a service into a seat, or into a tour of its own.
pub(crate) fn take_seat(
    board: &Board,
    sequence: &mut Sequence,
    stop: u32,
    seat: Option<Seat>,
) -> Result<(), Memory>
    requires board { IsBoard board.now }
    requires sequence { IsSequenceOn board.now.width sequence.old }
    requires stop { stop < board.now.width }
    ensures { OnOk result (IsSequenceOn board.now.width sequence.new) }
{
    match seat {
        None => sequence.open_tour(board, stop),
        Some(seat) => {
            let stop = if seat.turned { board.turn(stop) } else { stop };
            let place = sequence.start(seat.tour).saturating_add(seat.place);
            sequence.insert(board, stop, seat.tour, place)
        }
    }
}

// Puts a service back where it costs least.
pub(crate) fn put(
    board: &Board,
    costs: &[u32],
    sequence: &mut Sequence,
    price: u64,
    stop: u32,
) -> Result<(), Memory>
    requires board { IsBoard board.now }
    requires costs { length costs.now ≡ board.now.width }
    requires sequence { IsSequenceOn board.now.width sequence.old }
    requires stop { stop < board.now.width }
    ensures { OnOk result (IsSequenceOn board.now.width sequence.new) }
{
    let service = service_at(board, costs, stop);
    let offer = best_offer(board, sequence, service, price);
    take_seat(board, sequence, stop, offer.seat)
}
