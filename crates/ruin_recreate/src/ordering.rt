// The order in which services are put back.
ghost use Rattle.std.specs.Prelude.{ℕ, ◌<◌};
ghost use Rattle.std.specs.List.Sorted.{IsPermutation};
ghost use Rattle.ruin_recreate.specs.Boards.{IsBoard};
ghost use Rattle.ruin_recreate.specs.Annealing.{AreOn};

use crate::board::Board;
use crate::draws::draw;
use crate::ruining::Removed;
use rand_pcg::Lcg64Xsh32;

// Which services go first.
#[derive(Clone, Copy)]
enum Rule {
    Heaviest,
    Farthest,
    Nearest,
}

impl Rule {
    // The rule of a number below 11. Four numbers leave the services in random order (the weights of Christiaens and
    // Vanden Berghe 2020).
    fn of(number: u32) -> Option<Rule> {
        match number {
            0..4 => None,
            4..8 => Some(Rule::Heaviest),
            8..10 => Some(Rule::Farthest),
            _ => Some(Rule::Nearest),
        }
    }

    // The number by which a service is sorted, the least one first.
    fn key(self, board: &Board, stop: u32) -> u32
        requires board { IsBoard board.now }
        requires stop { stop < board.now.width }
    {
        match self {
            Rule::Heaviest => u32::MAX - board.demand(stop),
            Rule::Farthest => u32::MAX - board.between(0, stop) - board.between(stop, 0),
            Rule::Nearest => board.between(0, stop) + board.between(stop, 0),
        }
    }
}

// Puts services in random order.
pub(crate) fn shuffle(removed: &mut [Removed], generator: &mut Lcg64Xsh32)
    ensures permutation { IsPermutation removed.old removed.new }
    ensures within { (width : ℕ) → AreOn width removed.old → AreOn width removed.new }
{
    for i in 1..removed.len() {
        let Ok(limit) = u32::try_from(i + 1) else {
            break;
        };
        removed.swap(i, draw(generator, limit) as usize);
    }
}

// Sorts services by a rule.
fn sort(board: &Board, removed: &mut [Removed], rule: Rule)
    requires board { IsBoard board.now }
    requires within { AreOn board.now.width removed.old }
    ensures { AreOn board.now.width removed.new }
{
    for i in 0..removed.len() {
        removed[i].key = rule.key(board, removed[i].stop);
    }
    removed.sort_unstable_by_key(|service| service.key);
}

// Puts services in random order, or sorts them by a rule that is drawn.
pub(crate) fn order(board: &Board, removed: &mut [Removed], generator: &mut Lcg64Xsh32)
    requires board { IsBoard board.now }
    requires within { AreOn board.now.width removed.old }
    ensures { AreOn board.now.width removed.new }
{
    let rule = Rule::of(draw(generator, 11));
    shuffle(removed, generator);
    if let Some(rule) = rule {
        sort(board, removed, rule);
    }
}
