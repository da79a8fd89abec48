// How near the best point is to come to the program before rows are searched for, and when the generation ends.

use crate::effort::Effort;
use crate::limits::Limits;
use crate::separation::Found;
use price_points::UNIT;

// After so many searches that the value hardly rose since, the ratio rises.
const MOST_STALLED: u32 = 12;

// A gap of less does not count: a five hundredth of a unit of cost.
const LEAST_GAP: i128 = 2_000;

/// What is to be done to the program before its multipliers are read.
#[derive(Clone, Copy, PartialEq, Eq)]
pub(crate) enum Due {
    Nothing,
    Solve,
    SolveWithNewRows,
}

/// What the next turn does.
#[derive(Clone, Copy, PartialEq, Eq)]
pub(crate) enum Turn {
    End,
    Go(Due),
}

/// How near the best point is to come to the program.
#[derive(Clone, Copy)]
pub(crate) struct Pace {
    // A gap is small if it is less than this part of the value.
    ratio: u32,
    pub(crate) effort: Effort,
    limits: Limits,
    searches: u32,
    stalled: u32,
    // The value when rows were found last.
    last: i128,
}

impl Pace {
    /// The first pace within limits, from a value on.
    pub(crate) fn new(limits: Limits, value: i128) -> Pace {
        Pace {
            ratio: limits.first_ratio,
            effort: Effort::Quick,
            limits,
            searches: 0,
            stalled: 0,
            last: value,
        }
    }

    /// Whether a gap is small beside a value.
    pub(crate) fn is_small(&self, gap: i128, value: i128) -> bool {
        let allowed = value.max(i128::from(UNIT)) / i128::from(self.ratio.max(1));
        gap <= allowed || gap < LEAST_GAP
    }

    /// Whether rows may be searched for again, which counts.
    pub(crate) fn may_search(&mut self) -> bool {
        if self.searches >= self.limits.searches {
            return false;
        }
        self.searches = self.searches.saturating_add(1);
        true
    }

    /// What follows a search.
    pub(crate) fn after_search(&mut self, found: Found, gap: i128, value: i128) -> Turn {
        if found.rows > 0 && self.goes_on(found, value) {
            return Turn::Go(Due::SolveWithNewRows);
        }
        let due = if found.rows > 0 {
            Due::SolveWithNewRows
        } else {
            Due::Nothing
        };
        if self.effort == Effort::Quick && self.limits.full {
            self.effort = Effort::Full;
            return Turn::Go(due);
        }
        if self.ratio >= self.limits.last_ratio || gap < LEAST_GAP {
            return Turn::End;
        }
        self.ratio = self.ratio.saturating_mul(10).min(self.limits.last_ratio);
        self.stalled = 0;
        Turn::Go(due)
    }

    // Takes rows that were found, and answers whether the value still rises.
    fn goes_on(&mut self, found: Found, value: i128) -> bool {
        if found.plenty {
            self.effort = Effort::Quick;
        }
        let rise = value.saturating_sub(self.last);
        self.stalled = if rise < value / 20_000 {
            self.stalled.saturating_add(1)
        } else {
            0
        };
        self.last = value;
        self.stalled < MOST_STALLED
    }

    /// What follows if no tour was new: every gap counts as small, until the ratio rises again.
    pub(crate) fn without_tours(&mut self) -> Turn {
        if self.ratio >= self.limits.last_ratio {
            return Turn::End;
        }
        self.ratio = 1;
        Turn::Go(Due::Solve)
    }
}
