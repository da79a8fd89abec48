// Why a certificate is not good.
use plan_model::Verdict;

/// The part of a certificate that does not fit the instance. Shores, price sets and nodes are counted from 1.
#[derive(Clone, Copy, Debug, PartialEq, Eq)]
pub enum Part {
    /// A shore with the depot, or with a vertex that is not in the instance.
    Shore(u64),
    /// A price set that does not have exactly one price for each required edge.
    Prices(u64),
    /// A node whose pair is not of two required edges.
    Node(u64),
}

/// The first reason why a certificate is not good. Shores, sets, edges and nodes are counted from 1, and nodes in
/// preorder. The numbers of a price set are in parts of its denominator.
#[derive(Clone, Copy, Debug, PartialEq, Eq)]
pub enum Reason {
    /// The plan is not lawful.
    PlanUnlawful(Verdict),
    /// The plan is lawful, and its cost is not the one that is stated.
    CostDiffers { stated: u64, found: u128 },
    /// A part that does not fit the instance.
    Misfit(Part),
    /// The deadhead price of an edge is below 0. It is the cost times the denominator, less the weights of the shores
    /// that the edge crosses.
    WeightTooLarge { set: u64, edge: u32, price: i128 },
    /// A node splits a pair that is determined there, or makes a cut for which the numbers of its shore or the path
    /// leave no room.
    NotLean { node: u64 },
    /// A leaf says that its branch is void, and it is not.
    NotVoid { node: u64 },
    /// A leaf says that its branch is fixed, and it is not.
    NotFixed { node: u64 },
    /// The set of a leaf has a negative weight on a shore without an upper number there. This is the shore of the first
    /// such weight.
    MissingUpper { set: u64, node: u64, shore: u32 },
    /// With the prices of a leaf a relaxed tour costs less than it earns. `value` is the least value of such a tour,
    /// below 0.
    TourTooCheap { set: u64, node: u64, value: i128 },
    /// The value of a leaf is not above the limit. The limit of a price leaf is the denominator times one less than the
    /// bound, and that of a fixed leaf is one less than the bound.
    LeafLow { node: u64, value: i128, limit: i128 },
    /// A number of the instance is not the one that is stated. Place 1 is the number of vertices, 2 of edges, 3 of
    /// required edges, 4 the capacity and 5 the total demand.
    CountsDiffer { place: u64, stated: u64, found: u64 },
    /// The set of a leaf has a negative weight on a pair of edges to which the branch of the leaf does not say yes.
    /// This is the pair of the first such weight.
    MissingYes { set: u64, node: u64, a: u32, b: u32 },
}

/// Whether a certificate is good.
#[derive(Clone, Copy, Debug, PartialEq, Eq)]
pub enum Answer {
    /// It is good.
    Accepted,
    /// It is not good, for this first reason.
    Rejected(Reason),
}
