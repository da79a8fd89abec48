// Laws over trees that grow at their leaves, as functions whose contract is the law.
ghost use Rattle.grown_trees.specs.Laws.{DecisionsKeepChainsLight, DecisionsKeepExclusions, DecisionsKeepSets, GrownIsSound, MoreSetsKeepSound, MoreShoresKeepSound, SoundAtPlace, SoundIsTree, UnshownIsLeaf};

use decision_chains::{excluded_is_symmetric, yes_pairs_join};

/// If a leaf gives way to another tree, the nodes stay sound if those of the other tree are sound under the decisions
/// on the way to the leaf.
pub fn grown_trees_stay_sound()
    ensures { GrownIsSound }
{}

/// More price sets behind those of a support leave the nodes of a tree sound, and so do more shores behind those of its
/// pool.
pub fn more_support_keeps_trees_sound()
    ensures sets { MoreSetsKeepSound }
    ensures shores { MoreShoresKeepSound }
{}

/// A tree whose nodes are sound is lean, and its price leaves name sets that fit. Its turns for a cost are its nodes
/// that show the cost by themselves. It shows a bound exactly if each node does.
pub fn sound_trees_are_lean()
    ensures tree { SoundIsTree }
    ensures place { SoundAtPlace }
    ensures leaf { UnshownIsLeaf }
{}

/// A price set that fits under a branch fits under it with one more decision, and has no lower value there, if the
/// decision is a yes or a no to a pair that is not determined, or any decision on a shore.
pub fn decisions_keep_sets()
    ensures { DecisionsKeepSets }
{
    yes_pairs_join();
    excluded_is_symmetric();
}

/// A yes or a no to a pair that is not determined, and any decision on a shore, leaves each excluded pair excluded. If
/// no chain of a branch is above the capacity, none is after such a decision.
pub fn decisions_keep_exclusions()
    ensures excluded { DecisionsKeepExclusions }
    ensures light { DecisionsKeepChainsLight }
{
    yes_pairs_join();
    excluded_is_symmetric();
}
