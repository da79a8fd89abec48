// How much a search looks at.
ghost use Rattle.std.specs.Prelude.{◌≡◌};
ghost use Rattle.group_search.specs.Violation.{tolerance};

/// How much a search looks at.
#[derive(Clone, Copy, Debug, PartialEq, Eq)]
pub enum Effort {
    /// Small changes of the 40 best groups that have grown. Violations up to a fiftieth of a unit do not count.
    Quick,
    /// Small changes of the 120 best groups that have grown. Violations up to a two-hundredth of a unit do not count.
    Full,
}

impl Effort {
    // The violations that do not count, in parts.
    pub(crate) fn tolerance(self) -> u64
        ensures { result ≡ tolerance self }
    {
        match self {
            Effort::Quick => 20_971,
            Effort::Full => 5_242,
        }
    }

    // From how many sets edges are moved in and out.
    pub(crate) fn starts(self) -> usize {
        match self {
            Effort::Quick => 40,
            Effort::Full => 120,
        }
    }
}
