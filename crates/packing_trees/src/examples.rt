// Small data on which a fact that no call decides holds, and on which it does not.
ghost use Rattle.std.specs.Prelude.{◌≡◌, ◌∷◌, [], true, false};
ghost use Rattle.packing_trees.specs.Bundles.{
  AreAllClosed,
  AreBundled,
  AreBundles,
  AreParted,
  IsChoice,
  IsClosedPair,
  IsTied,
  MeetsBranch,
  MeetsChoice,
  TiesLead,
  alone_count,
  bundle_count,
  bundle_of,
  bundle_weight,
  is_large,
  large_count,
  large_weight,
  middle_weight,
  share_value,
};
ghost use Rattle.packing_trees.specs.Examples.{carrying, claim, split_pair};
ghost use Rattle.packing_trees.specs.Reasons.{
  AreWhole,
  FirstNodeFails,
  GroupsArePlaced,
  HasGroupEach,
  IsFilled,
  IsFirstEmpty,
  IsFirstMisfit,
  IsFirstOverload,
  IsFirstPackReason,
  IsFirstWrong,
  IsPackAnswer,
  NodeFails,
  NodeFits,
  NodeIsRight,
  NotWholeAt,
  branches_below,
};
ghost use Rattle.packing_trees.specs.Trees.{IsLean, IsPackProof, PairsIn, Shows, preorder, settled, share, turns_of};
ghost use Rattle.packing_trees.specs.declared.node.PackChoice.TheVariants as choices;
ghost use Rattle.packing_trees.specs.declared.node.PackChoice.TheVariants.{Together};
ghost use Rattle.packing_trees.specs.declared.node.PackNode.TheVariants.{Apart, Pair, Share};
ghost use Rattle.packing_trees.specs.declared.reason.PackAnswer.TheVariants.{Accepted, Rejected};
ghost use Rattle.packing_trees.specs.declared.reason.PackReason.TheVariants.{GroupsDiffer, LeafLow, NotApart, NotLean, ShareWrong};

fn a_choice()
    ensures pair { IsChoice (carrying 3) (Together 1 3) }
    ensures turned { ¬ (IsChoice (carrying 3) (choices.Apart 3 1)) }
    ensures past { ¬ (IsChoice (carrying 3) (Together 1 4)) }
{}

fn a_choice_that_groups_meet()
    ensures together { MeetsChoice (1 ∷ 1 ∷ 2 ∷ []) (Together 1 2) }
    ensures not_together { ¬ (MeetsChoice (1 ∷ 1 ∷ 2 ∷ []) (Together 1 3)) }
    ensures apart { MeetsChoice (1 ∷ 1 ∷ 2 ∷ []) (choices.Apart 2 3) }
    ensures not_apart { ¬ (MeetsChoice (1 ∷ 1 ∷ 2 ∷ []) (choices.Apart 1 2)) }
    ensures branch { ¬ (MeetsBranch (1 ∷ 1 ∷ 2 ∷ []) (Together 1 3 ∷ [])) }
{}

fn a_way_along_choices()
    ensures way { TiesLead (Together 1 3 ∷ Together 2 3 ∷ []) 1 (3 ∷ 2 ∷ []) 2 }
    ensures bundled { AreBundled (Together 1 3 ∷ Together 2 3 ∷ []) 1 2 }
    ensures apart { ¬ (AreBundled (choices.Apart 1 2 ∷ []) 1 2) }
    ensures elsewhere { ¬ (IsTied (Together 1 3 ∷ []) 1 2) }
{}

fn a_number_of_a_bundle()
    ensures by_way_of { bundle_of (Together 1 3 ∷ Together 2 3 ∷ []) 2 ≡ 1 }
    ensures least { bundle_of (Together 2 3 ∷ []) 3 ≡ 2 }
    ensures apart { bundle_of (choices.Apart 1 2 ∷ []) 2 ≡ 2 }
{}

fn a_weight_of_a_bundle()
    ensures both { bundle_weight (carrying 3) (Together 1 3 ∷ []) 1 ≡ 4 }
    ensures none { bundle_weight (carrying 3) (Together 1 3 ∷ []) 3 ≡ 0 }
    ensures two { bundle_count (carrying 3) (Together 1 3 ∷ []) ≡ 2 }
    ensures lists { AreBundles (carrying 3) (Together 1 3 ∷ []) (0 ∷ 1 ∷ 2 ∷ 1 ∷ []) (0 ∷ 4 ∷ 2 ∷ 0 ∷ []) }
    ensures short { ¬ (AreBundles (carrying 3) [] (1 ∷ 2 ∷ 3 ∷ []) (2 ∷ 2 ∷ 2 ∷ [])) }
{}

fn a_closed_pair()
    ensures heavy { IsClosedPair (carrying 3) [] 1 2 }
    ensures light { ¬ (IsClosedPair (carrying 4) [] 1 2) }
    ensures one { IsClosedPair (carrying 4) (Together 1 2 ∷ []) 1 2 }
    ensures apart { IsClosedPair (carrying 4) (choices.Apart 1 2 ∷ []) 1 2 }
    ensures by_bundle { AreParted (Together 1 2 ∷ choices.Apart 1 3 ∷ []) 2 3 }
    ensures other { ¬ (AreParted (choices.Apart 1 3 ∷ []) 1 2) }
    ensures open_pair { ¬ (AreAllClosed (carrying 4) []) }
{}

fn a_share()
    ensures large { is_large 5 2 3 ≡ true }
    ensures half { is_large 4 2 2 ≡ false }
    ensures alone { is_large 5 3 3 ≡ false }
    ensures alone_count { alone_count (carrying 5) (Together 1 2 ∷ []) 2 ≡ 1 }
    ensures large_count { large_count (carrying 3) [] 0 ≡ 3 }
    ensures large_weight { large_weight (carrying 3) [] 0 ≡ 6 }
    ensures middle_weight { middle_weight (carrying 4) [] 2 ≡ 6 }
    ensures small { middle_weight (carrying 4) [] 3 ≡ 0 }
    ensures three { share_value (carrying 3) [] 0 ≡ 3 }
    ensures two { share_value (carrying 4) [] 2 ≡ 2 }
{}

fn a_tree()
    ensures nodes { preorder split_pair ≡ Pair 1 2 ∷ Share 2 ∷ Apart ∷ [] }
    ensures pairs { PairsIn (carrying 4) split_pair }
    ensures lean { IsLean (carrying 4) [] split_pair }
    ensures not_lean { ¬ (IsLean (carrying 3) [] split_pair) }
    ensures shows { Shows (carrying 4) [] 2 (share 2) }
    ensures low { ¬ (Shows (carrying 4) [] 3 (share 2)) }
    ensures over_half { ¬ (Shows (carrying 4) [] 0 (share 3)) }
    ensures unsettled { ¬ (Shows (carrying 4) [] 2 settled) }
    ensures turns { turns_of (carrying 4) [] 3 split_pair ≡ 2 }
{}

fn a_reason_of_groups()
    ensures each { HasGroupEach (carrying 3) (claim (1 ∷ 2 ∷ 3 ∷ []) 3 3 []) }
    ensures not_each { ¬ (HasGroupEach (carrying 3) (claim (1 ∷ 2 ∷ []) 3 3 [])) }
    ensures wrong { ¬ (GroupsArePlaced (carrying 3) (claim (1 ∷ 2 ∷ 4 ∷ []) 3 3 [])) }
    ensures right { ¬ (IsFirstWrong (carrying 3) (claim (1 ∷ 2 ∷ 3 ∷ []) 3 3 []) 3) }
    ensures filled { IsFilled (carrying 3) (claim (1 ∷ 2 ∷ 3 ∷ []) 3 3 []) 2 }
    ensures not_empty { ¬ (IsFirstEmpty (carrying 3) (claim (1 ∷ 2 ∷ 3 ∷ []) 3 3 []) 2) }
    ensures over { IsFirstOverload (carrying 3) (claim (1 ∷ 1 ∷ 2 ∷ []) 2 3 []) 1 4 }
    ensures light { ¬ (IsFirstOverload (carrying 4) (claim (1 ∷ 1 ∷ 2 ∷ []) 2 3 []) 1 4) }
{}

fn a_reason_of_the_tree()
    ensures empty { NotWholeAt 1 0 [] 0 }
    ensures more { NotWholeAt 1 0 (Apart ∷ Apart ∷ []) 1 }
    ensures fewer { NotWholeAt 1 0 (Pair 1 2 ∷ Apart ∷ []) 2 }
    ensures whole { ¬ (NotWholeAt 1 0 (Pair 1 2 ∷ Apart ∷ Apart ∷ []) 3) }
    ensures tree { AreWhole (Pair 1 2 ∷ Share 2 ∷ Apart ∷ []) }
    ensures misfit { IsFirstMisfit (carrying 3) (claim [] 0 0 (Pair 2 1 ∷ [])) 1 }
    ensures fit { ¬ (IsFirstMisfit (carrying 3) (claim [] 0 0 (Pair 1 2 ∷ [])) 1) }
    ensures node { NodeFits (carrying 3) (Pair 1 3) }
    ensures turned { ¬ (NodeFits (carrying 3) (Pair 3 1)) }
{}

fn a_reason_of_a_node()
    ensures closed { NodeFails (carrying 3) 3 1 [] (Pair 1 2) (NotLean 1) }
    ensures wrong { NodeFails (carrying 3) 3 1 [] (Share 2) (ShareWrong 1) }
    ensures low { NodeFails (carrying 4) 3 1 [] (Share 2) (LeafLow 1 2) }
    ensures unsettled { NodeFails (carrying 4) 3 1 [] Apart (NotApart 1) }
    ensures right { NodeIsRight (carrying 4) 2 [] (Share 2) }
    ensures not_right { ¬ (NodeIsRight (carrying 4) 3 [] (Share 2)) }
    ensures below { branches_below [] (Pair 1 2) ≡ (Together 1 2 ∷ []) ∷ (choices.Apart 1 2 ∷ []) ∷ [] }
    ensures second { FirstNodeFails (carrying 4) 2 1 (Pair 1 2 ∷ Share 3 ∷ []) ([] ∷ []) (ShareWrong 2) }
{}

fn a_whole_packing()
    ensures proof { IsPackProof (carrying 3) (Share 0 ∷ []) 3 }
    ensures no_proof { ¬ (IsPackProof (carrying 3) [] 0) }
    ensures accepted { IsPackAnswer (carrying 3) (claim (1 ∷ 2 ∷ 3 ∷ []) 3 3 (Share 0 ∷ [])) Accepted }
    ensures not_accepted { ¬ (IsPackAnswer (carrying 3) (claim (1 ∷ 2 ∷ []) 3 3 (Share 0 ∷ [])) Accepted) }
    ensures rejected { IsPackAnswer (carrying 3) (claim (1 ∷ 2 ∷ []) 3 3 []) (Rejected (GroupsDiffer 2 3)) }
    ensures not_rejected { ¬ (IsPackAnswer (carrying 3) (claim (1 ∷ 2 ∷ 3 ∷ []) 3 3 []) (Rejected (GroupsDiffer 3 3))) }
    ensures low { IsFirstPackReason (carrying 3) (claim (1 ∷ 2 ∷ 3 ∷ []) 3 4 (Share 0 ∷ [])) (LeafLow 1 3) }
    ensures not_low { ¬ (IsFirstPackReason (carrying 3) (claim (1 ∷ 2 ∷ 3 ∷ []) 3 3 (Share 0 ∷ [])) (LeafLow 1 3)) }
{}
