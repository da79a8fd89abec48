// How far a generation goes.

use crate::size::steps_of_fill;
use carp_base::Instance;

// Fills of the table for the first leaf.
const ROOT_FILLS: u32 = 1000;

// So many entries of the program are touched at a leaf, and so many steps of fills are made there. A leaf that stops
// before its program is solved gains nothing.
const LEAF_WORK: u64 = 1_500_000_000;

// So many entries of the program are touched in a trial of a decision.
const TRIAL_WORK: u64 = 400_000_000;

/// How far a generation goes.
#[derive(Clone, Copy)]
pub(crate) struct Limits {
    /// Fills of the table.
    pub(crate) fills: u32,
    /// Searches for rows.
    pub(crate) searches: u32,
    /// Whether full searches follow quick ones.
    pub(crate) full: bool,
    /// A gap is small if it is less than this part of the value: at first, and in the end.
    pub(crate) first_ratio: u32,
    pub(crate) last_ratio: u32,
    /// Entries of the program that are touched, but for the last turn.
    pub(crate) work: u64,
    /// The value of a best point that is enough.
    pub(crate) enough: i128,
}

impl Limits {
    /// Those of a generation that begins with nothing.
    pub(crate) fn of_root(enough: i128) -> Limits {
        Limits {
            fills: ROOT_FILLS,
            searches: 400,
            full: true,
            first_ratio: 200,
            last_ratio: 20_000,
            work: 4_000_000_000,
            enough,
        }
    }

    /// Those of a leaf, which begins from the program of the leaf that was split.
    pub(crate) fn of_leaf(inst: &Instance, enough: i128) -> Limits {
        Limits {
            fills: (LEAF_WORK / steps_of_fill(inst)).clamp(10, 100) as u32,
            searches: 2,
            full: false,
            first_ratio: 10_000,
            last_ratio: 10_000,
            work: LEAF_WORK,
            enough,
        }
    }

    /// Those of a trial of a decision.
    pub(crate) fn of_trial(enough: i128) -> Limits {
        Limits {
            fills: 8,
            searches: 0,
            full: false,
            first_ratio: 10_000,
            last_ratio: 10_000,
            work: TRIAL_WORK,
            enough,
        }
    }
}
