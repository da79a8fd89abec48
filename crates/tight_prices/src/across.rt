// The least deadhead price over a shore.
ghost use Rattle.std.specs.Prelude.{◌≡◌, ◌⊎◌, ◌≤◌, length, true};
ghost use Rattle.plan_model.specs.Plans.{crosses};
ghost use Rattle.cut_pool.specs.Shores.{is_in};
ghost use Rattle.tight_prices.specs.Searches.{IsOver};

use carp_base::{Edge, Instance};
use cut_pool::{Shore, ShorePool};

/// The least price of an edge across a shore, and at most this number. The prices stand in the order of the edges.
pub(crate) fn least_across(inst: &Instance, shore: &Shore, prices: &[u64], most: u64) -> u64
    requires { length prices.now ≡ length inst.now.edges }
    ensures low { result ≤ most }
    ensures either { (result ≡ most) ⊎ IsOver inst.now shore.now prices.now result }
{
    let edges = inst.edges();
    let mut least = most;
    for i in 0..edges.len() {
        least = lesser_over(shore, &edges[i], prices[i], least);
    }
    least
}

// The lesser of a number and the price of an edge, where the edge crosses the shore.
fn lesser_over(shore: &Shore, edge: &Edge, price: u64, least: u64) -> u64
    ensures low { result ≤ least }
    ensures either { (result ≡ least) ⊎ ((crosses (is_in shore.now) edge.now ≡ true) × (price ≤ result)) }
{
    if shore.crosses(edge) {
        price.min(least)
    } else {
        least
    }
}
