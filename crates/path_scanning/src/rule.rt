// The five rules for ties, and what each compares.
ghost use Rattle.std.specs.Prelude.{◌≡◌, ◌^◌, ◌<◌};
ghost use Rattle.path_scanning.specs.Ties.{tie_of};

/// Which of the nearest tasks a tour takes (Golden, DeArmon and Baker 1983).
#[derive(Clone, Copy, Debug, PartialEq, Eq)]
pub enum Rule {
    /// The task whose end is farthest from the depot.
    Far,
    /// The task whose end is nearest to the depot.
    Near,
    /// The task of the least service cost for each unit of demand.
    Cheap,
    /// The task of the greatest service cost for each unit of demand.
    Dear,
    /// As `Far` while the load that the tour has is at most half of the capacity, and then as `Near`.
    Half,
}

// What is compared at a moment, if tasks are equally near.
#[derive(Clone, Copy)]
pub(crate) enum Tie {
    Farther,
    Nearer,
    Cheaper,
    Dearer,
}

impl Rule {
    // What the rule compares for a tour of this load.
    pub(crate) fn tie(self, capacity: u64, load: u64) -> Tie
        requires { load < 2 ^ 62 }
        ensures { result ≡ tie_of self capacity load }
    {
        match self {
            Rule::Far => Tie::Farther,
            Rule::Near => Tie::Nearer,
            Rule::Cheap => Tie::Cheaper,
            Rule::Dear => Tie::Dearer,
            Rule::Half if 2 * load <= capacity => Tie::Farther,
            Rule::Half => Tie::Nearer,
        }
    }
}
