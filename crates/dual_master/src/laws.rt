// A law over plain data, as a function whose contract is the law.
ghost use Rattle.dual_master.specs.Growth.{GrowthKeepsSets};

/// A pool to which shores are added leaves each price set as it was whose shores it held: the set fits under exactly the
/// branches under which it fitted, and has the same value under each.
pub fn growth_keeps_sets()
    ensures { GrowthKeepsSets }
{}
