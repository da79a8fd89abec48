// Laws over yes pairs and excluded pairs, as functions whose contract is the law.
ghost use Rattle.decision_chains.specs.Laws.{DistinctSumToNoMore, ExcludedIsSymmetric, YesPairsJoin};

/// Yes and no are said of a pair in either order. What yes pairs join is joined in either order and along further
/// pairs, and an edge is joined to itself by no pair at all. So the chains are the classes of an equivalence.
pub fn yes_pairs_join()
    ensures { YesPairsJoin }
{}

/// An excluded pair is excluded in either order.
pub fn excluded_is_symmetric()
    ensures { ExcludedIsSymmetric }
{}

/// Different edges that all stand in a list sum to no more than the list.
pub fn distinct_edges_sum_to_no_more()
    ensures { DistinctSumToNoMore }
{}
