// The least cutting of an order, as a shortest path from its end to its start.
ghost use Rattle.std.specs.Prelude.{◌≡◌, ℕ, ◌+◌, ◌<◌, ◌≤◌, length};
ghost use Rattle.giant_split.specs.Legs.{AreFineLegs};
ghost use Rattle.giant_split.specs.Cuts.{AreCutFrom, IsBestLast, IsSmallCost, onward};

use crate::legs::Leg;

// The way up to the last task of a tour, from there home, and what the rest of the order costs.
fn onward(legs: &[Leg], costs: &[u64], last: usize, capacity: u64) -> u64
    requires fine { AreFineLegs capacity legs.now }
    requires last { last < length legs.now }
    requires costs_long { length costs.now ≡ length legs.now + 1 }
    requires small { IsSmallCost legs.now costs.now (last + 1) }
    ensures value { result ≡ onward legs.now costs.now last }
    ensures small { result < 2000000000000 }
{
    let leg = &legs[last];
    leg.way + leg.home + costs[last + 1]
}

// The place where a tour that starts at a place ends best, by the costs of the rests of the order after it.
fn best_last(legs: &[Leg], costs: &[u64], from: usize, capacity: u64) -> usize
    requires fine { AreFineLegs capacity legs.now }
    requires from { from < length legs.now }
    requires costs_long { length costs.now ≡ length legs.now + 1 }
    requires small { (k : ℕ) → from < k → k ≤ length legs.now → IsSmallCost legs.now costs.now k }
    ensures { IsBestLast capacity legs.now costs.now from (length legs.now) result }
{
    let room = legs[from].before + capacity;
    let mut best = from;
    let mut least = onward(legs, costs, from, capacity);
    for last in from + 1..legs.len() {
        if legs[last].after > room {
            break;
        }
        let next = onward(legs, costs, last, capacity);
        if next < least {
            best = last;
            least = next;
        }
    }
    best
}

// Writes for each place what the rest of the order from there on costs, and where its first tour ends.
pub(crate) fn cut_legs(legs: &[Leg], capacity: u64, costs: &mut [u64], lasts: &mut [usize])
    requires fine { AreFineLegs capacity legs.now }
    requires costs_long { length costs.old ≡ length legs.now + 1 }
    requires lasts_long { length lasts.old ≡ length legs.now }
    ensures { AreCutFrom capacity legs.now costs.new lasts.new 0 }
{
    let count = legs.len();
    costs[count] = 0;
    for from in (0..count).rev() {
        let last = best_last(legs, costs, from, capacity);
        lasts[from] = last;
        let leg = &legs[from];
        costs[from] = leg.out + (onward(legs, costs, last, capacity) - leg.way);
    }
}
