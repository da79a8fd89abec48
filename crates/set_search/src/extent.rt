// How far a search goes, and which sets it keeps.

/// How far a search goes, and which sets it keeps.
#[derive(Clone, Copy, Debug, PartialEq, Eq)]
pub struct Extent {
    /// How many sets it keeps at most.
    pub most: usize,
    /// It keeps a set only if the cut is by more than this less than its vehicles and parity ask for, in parts of
    /// [`crate::UNIT`].
    pub tolerance: i64,
    /// It passes over sets of fewer elements.
    pub least_members: i64,
    /// Whether of sets that follow each other with equal numbers of vehicles it keeps only the best.
    pub sparse: bool,
    /// A set that grows takes in so many elements at most.
    pub growth: u32,
    /// Whether by the rule of the next vehicle the least demand comes first of elements with equal cuts.
    pub by_demand: bool,
    /// Elements are moved in and out of so many sets at most: the best ones that have grown.
    pub starts: usize,
    /// So many elements are moved at most from each of them towards one number of vehicles.
    pub moves: u32,
    /// It moves elements of a set that has grown only if two crossings for each of its vehicles, less its cut, are more
    /// than this.
    pub least_lack: i64,
    /// Elements are moved towards one vehicle more only up to so many vehicles.
    pub most_vehicles: i64,
    /// Whether an element that rests may move if that gives a least value so far.
    pub aspiration: bool,
}

// Sets that follow each other.
#[derive(Clone, Copy)]
pub(crate) struct Run {
    pub(crate) number: u64,
    vehicles: i64,
}

impl Run {
    pub(crate) fn new() -> Run {
        Run {
            number: 0,
            vehicles: -1,
        }
    }

    // The run of the next set, which takes so many vehicles. It may go on if it is sparse.
    pub(crate) fn next(self, vehicles: i64, sparse: bool) -> Run {
        let goes_on = sparse && vehicles == self.vehicles;
        Run {
            number: self.number.saturating_add(u64::from(!goes_on)),
            vehicles,
        }
    }

    // The next set stands by itself.
    pub(crate) fn ended(self) -> Run {
        Run {
            vehicles: -1,
            ..self
        }
    }
}
