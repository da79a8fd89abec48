// What bundles add to the bound of a share.
ghost use Rattle.std.specs.Prelude.{◌≡◌, ℕ, ◌-◌, ◌≤◌, List, length};
ghost use Rattle.packing_trees.specs.Tables.{AddsBundle, AreShares, AreSmallShares, IsSmallTable, over_labels, value_of};

/// The bundles that count for a share of size s, as Martello and Toth (1990, section 8.3) tell them apart.
#[derive(Clone, Copy)]
pub(crate) struct Shares {
    /// How many weigh more than the capacity less s.
    alone: u64,
    /// How many of the others weigh more than half the capacity.
    large: u64,
    large_weight: u64,
    /// What those weigh that weigh at least s and at most half the capacity.
    middle_weight: u64,
}

impl Shares {
    // With one bundle more.
    fn with(self, capacity: u64, s: u64, weight: u64) -> Shares
        requires small { AreSmallShares 600 self }
        requires light { weight ≤ 18000000 }
        ensures { AddsBundle capacity s weight self result }
    {
        let mut shares = self;
        if weight > capacity.saturating_sub(s) {
            shares.alone += 1;
        } else if 2 * weight > capacity {
            shares.large += 1;
            shares.large_weight += weight;
        } else if weight >= s {
            shares.middle_weight += weight;
        }
        shares
    }

    /// So many groups these bundles take at least.
    pub(crate) fn value(&self, capacity: u64) -> u64
        requires some { 1 ≤ capacity }
        requires few { capacity ≤ 30000 }
        requires small { AreSmallShares 600 self.now }
        ensures { result ≡ value_of capacity self.now }
    {
        let room = (self.large * capacity).saturating_sub(self.large_weight);
        self.alone + self.large + self.middle_weight.saturating_sub(room).div_ceil(capacity)
    }
}

/// What all bundles add, in time in proportion to the edges.
pub(crate) fn shares_of(capacity: u64, s: u64, labels: &[u32], weights: &[u64]) -> Shares
    requires { IsSmallTable labels.now weights.now }
    ensures all { AreShares capacity s labels.now weights.now (length labels.now - 1) result }
    ensures small { AreSmallShares 600 result }
{
    let mut shares = Shares {
        alone: 0,
        large: 0,
        large_weight: 0,
        middle_weight: 0,
    };
    for edge in 1..labels.len() {
        if labels[edge] as usize == edge {
            shares = shares.with(capacity, s, weights[edge]);
        }
    }
    shares
}

/// How many bundles there are.
pub(crate) fn count_bundles(labels: &[u32]) -> u32
    requires some { 1 ≤ length labels.now }
    requires few { length labels.now ≤ 601 }
    ensures { (weights : List ℕ) → result ≡ over_labels labels.now weights (length labels.now - 1) (λ w. 1) }
{
    let mut count = 0;
    for bundle in 1..labels.len() {
        if labels[bundle] as usize == bundle {
            count += 1;
        }
    }
    count
}
