// Joins of two tours, and which goes first.
ghost use Rattle.std.specs.Prelude.{◌≡◌, ◌⊎◌, true, false, Some};
ghost use Rattle.augment_merge.specs.Merging.{JoinNoLater, way_number};
ghost use Rattle.augment_merge.specs.Outlines.{FindsBest};

// Two tours by their places, the earlier one first, which of them are reversed, and what joining them so saves.
#[derive(Clone, Copy)]
pub(crate) struct Join {
    pub(crate) first: usize,
    pub(crate) second: usize,
    pub(crate) turn_first: bool,
    pub(crate) turn_second: bool,
    pub(crate) saving: u64,
}

impl Join {
    // The place of its way among the four.
    fn way(&self) -> u32
        ensures { result ≡ way_number self.now }
    {
        2 * u32::from(self.turn_first) + u32::from(self.turn_second)
    }

    // Whether it goes before another, or is the same.
    fn is_no_later(&self, other: &Join) -> bool
        ensures yes { result ≡ true → JoinNoLater self.now other.now }
        ensures no { result ≡ false → JoinNoLater other.now self.now }
    {
        if self.saving != other.saving {
            return self.saving > other.saving;
        }
        if self.first != other.first {
            return self.first < other.first;
        }
        if self.second != other.second {
            return self.second < other.second;
        }
        self.way() <= other.way()
    }
}

// That of two joins that goes first, if there are any.
pub(crate) fn better(one: Option<Join>, other: Option<Join>) -> Option<Join>
    ensures { FindsBest (λ j. (one ≡ Some j) ⊎ (other ≡ Some j)) result }
{
    match (one, other) {
        (Some(join), Some(next)) if join.is_no_later(&next) => Some(join),
        (Some(_), Some(next)) => Some(next),
        (found, None) => found,
        (None, found) => found,
    }
}
