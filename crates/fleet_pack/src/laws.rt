// Laws, as functions whose contract is the law.
ghost use Rattle.fleet_pack.specs.Laws.{LeanTreesAreSmall};

/// With m required edges, a lean tree has fewer than 2 ^ (m (m - 1) / 2 + 1) turns for any count.
pub fn lean_trees_are_small()
    ensures { LeanTreesAreSmall }
{}
