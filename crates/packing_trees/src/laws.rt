// Laws over bundles and packing trees, as functions whose contract is the law.
ghost use Rattle.packing_trees.specs.Laws.{BundlesAreJoined, BundlesAreNamedByTheLeast, ProofsBoundPackings, TreesBoundPackings};
ghost use Rattle.packing_trees.specs.Reasons.{GoodHasNoReason, ReasonIsUnique};

/// Every packing that meets a branch has at least as many groups as a tree shows there, and so every packing has at least
/// as many as a proof shows.
pub fn trees_bound_packings()
    ensures trees { TreesBoundPackings }
    ensures proofs { ProofsBoundPackings }
{}

/// Two edges have one bundle's number exactly if together choices join them. That number is the least edge of the
/// bundle.
pub fn bundles_are_joined()
    ensures joined { BundlesAreJoined }
    ensures least { BundlesAreNamedByTheLeast }
{}

/// No good packing has a first reason, and whatever is claimed has at most one.
pub fn pack_answers_are_exact()
    ensures good { GoodHasNoReason }
    ensures unique { ReasonIsUnique }
{}
