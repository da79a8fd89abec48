// What loads above the room cost while a search goes on.
ghost use Rattle.ruin_recreate.specs.Boards.{IsBoard};

use crate::board::Board;

// The greatest price of a unit of load, in 256ths.
const GREATEST: u64 = 1 << 32;

// What loads above the room cost, at a price for each unit that is in 256ths.
pub(crate) fn fine_of(price: u64, excess: u64) -> u64 {
    price.saturating_mul(excess) / 256
}

// The sum of the demands of all edges.
fn total_demand(board: &Board) -> u64 {
    let mut sum: u64 = 0;
    for &demand in &board.demands {
        sum = sum.saturating_add(u64::from(demand));
    }
    sum / 2
}

// The first price: a unit of load costs four times what there is to cross without service for each unit of demand.
pub(crate) fn first_price(board: &Board, scale: u64) -> u64
    requires { IsBoard board.now }
{
    let deadheads = scale.saturating_mul(u64::from(board.edges()));
    (deadheads.saturating_mul(4 * 256) / total_demand(board).saturating_add(1))
        .saturating_add(1)
        .min(GREATEST)
}

// The next price: a 16th higher if too few sequences were lawful, and else a 16th lower.
pub(crate) fn next_price(price: u64, too_few: bool) -> u64 {
    if too_few {
        price.saturating_add(price / 16 + 1).min(GREATEST)
    } else {
        price - price / 16
    }
}
