// Small data on which a fact that no call decides holds, and on which it does not.
ghost use Rattle.std.specs.Prelude.{◌≡◌, [], ◌∷◌, true, false};
ghost use Rattle.augment_merge.specs.Augmenting.{AreAugmented, augmented_tasks, is_absorbed, is_among};
ghost use Rattle.augment_merge.specs.Joins.{IsTourJoin, joined_tour, reversed_tour};
ghost use Rattle.augment_merge.specs.Merging.{IsSavingJoin, JoinNoLater, after_join, has_tasks};
ghost use Rattle.augment_merge.specs.Examples.{far_back, far_task, far_walk, two_lane_town, later_join, lesser_join, near_back, near_task, plain_join, turned_join};

fn a_tour_reversed()
    ensures turned { reversed_tour (near_task ∷ far_task ∷ []) ≡ far_back ∷ near_back ∷ [] }
    ensures empty { reversed_tour [] ≡ [] }
{}

fn two_tours_in_four_ways()
    ensures ahead { joined_tour false false (near_task ∷ []) (far_task ∷ []) ≡ near_task ∷ far_task ∷ [] }
    ensures second { joined_tour false true (near_task ∷ []) (far_task ∷ []) ≡ near_task ∷ far_back ∷ [] }
    ensures first { joined_tour true false (near_task ∷ []) (far_task ∷ []) ≡ near_back ∷ far_task ∷ [] }
    ensures both { joined_tour true true (near_task ∷ []) (far_task ∷ []) ≡ near_back ∷ far_back ∷ [] }
{}

fn which_tours_are_joined()
    ensures two { IsTourJoin ((near_task ∷ []) ∷ (far_task ∷ []) ∷ []) ((near_task ∷ far_back ∷ []) ∷ []) }
    ensures alone { ¬ (IsTourJoin ((near_task ∷ []) ∷ []) ((near_task ∷ []) ∷ [])) }
{}

fn what_is_absorbed()
    ensures fits { is_absorbed two_lane_town [] 1 1 ≡ true }
    ensures heavy { is_absorbed two_lane_town [] 2 1 ≡ false }
    ensures taken { is_absorbed two_lane_town (near_back ∷ []) 0 1 ≡ false }
    ensures other { is_absorbed two_lane_town [] 0 3 ≡ false }
    ensures among { is_among 1 (far_task ∷ near_task ∷ []) ≡ true }
    ensures none { is_among 2 (near_task ∷ []) ≡ false }
{}

fn a_taken_tour()
    ensures absorbs { augmented_tasks two_lane_town (far_task ∷ []) 1 far_walk ≡ near_task ∷ far_task ∷ [] }
    ensures full { augmented_tasks two_lane_town (far_task ∷ []) 2 far_walk ≡ far_task ∷ [] }
    ensures taken { augmented_tasks two_lane_town (near_task ∷ far_task ∷ []) 1 far_walk ≡ far_task ∷ [] }
{}

fn no_tours_taken()
    ensures unserved { ¬ (AreAugmented two_lane_town [] [] []) }
{}

fn joins_in_order()
    ensures way { JoinNoLater plain_join turned_join }
    ensures pair { JoinNoLater turned_join later_join }
    ensures saving { ¬ (JoinNoLater lesser_join plain_join) }
    ensures later { ¬ (JoinNoLater later_join plain_join) }
{}

fn after_a_join()
    ensures joined { after_join ((near_task ∷ []) ∷ (far_task ∷ []) ∷ []) plain_join ≡ (near_task ∷ far_back ∷ []) ∷ [] ∷ [] }
    ensures some { has_tasks (near_task ∷ []) ≡ true }
    ensures none { has_tasks [] ≡ false }
    ensures itself { ¬ (IsSavingJoin two_lane_town ((near_task ∷ []) ∷ []) plain_join) }
{}
