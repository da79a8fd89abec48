// The variables of least reduced cost.
ghost use Rattle.std.specs.Prelude.{◌<◌, ◌≤◌, length};

use crate::fixed::Amount;
use crate::ids::RowId;
use crate::selection::Variable;
use carp_base::Memory;
use std::alloc::Global;

/// A variable and its reduced cost.
#[derive(Clone, Copy)]
pub(crate) struct Candidate {
    pub reduced: Amount,
    pub variable: Variable,
}

/// The candidates of least reduced cost, the least one first, up to a number of them.
#[derive(Drop)]
pub(crate) struct Shortlist {
    items: Vec<Candidate>,
    count: usize,
    ghost within: { count ≤ length items.items },
}

// Moves the candidate at a place to the front until the one before it is no greater.
fn rise(items: &mut [Candidate], last: usize)
    requires { last < length items.old }
{
    for place in (1..last + 1).rev() {
        if items[place].reduced.value() >= items[place - 1].reduced.value() {
            break;
        }
        items.swap(place, place - 1);
    }
}

impl Shortlist {
    /// An empty list for at most so many candidates.
    pub(crate) fn new(alloc: Global, most: usize) -> Result<Shortlist, Memory> {
        let none = Candidate {
            reduced: Amount::ZERO,
            variable: Variable::Surplus(RowId::FIRST),
        };
        Ok(Shortlist {
            items: vec![in alloc; none; most]?,
            count: 0,
        })
    }

    /// Takes all candidates out.
    pub(crate) fn clear(&mut self) {
        self.count = 0;
    }

    /// The candidates.
    pub(crate) fn items(&self) -> &[Candidate] {
        &self.items[..self.count]
    }

    /// The candidate at a place, if there is one.
    pub(crate) fn at(&self, place: usize) -> Option<Candidate> {
        self.items().get(place).copied()
    }

    /// Adds a candidate. If there is no room, the greatest one goes.
    pub(crate) fn offer(&mut self, candidate: Candidate) {
        if self.count < self.items.len() {
            self.items[self.count] = candidate;
            self.count += 1;
            rise(&mut self.items, self.count - 1);
        } else if self.count > 0 {
            let last = self.count - 1;
            if candidate.reduced.value() < self.items[last].reduced.value() {
                self.items[last] = candidate;
                rise(&mut self.items, last);
            }
        }
    }
}
