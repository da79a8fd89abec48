// Small data on which a fact that no call decides holds, and on which it does not.
ghost use Rattle.std.specs.Prelude.{◌≡◌, [], ◌∷◌};
ghost use Rattle.carp_base.specs.Packings.{IsPacking};
ghost use Rattle.group_plans.specs.Examples.{against_street, crossing, far_triangle, lone_depot, on_street, outer_walk, second_walk, triangle};
ghost use Rattle.group_plans.specs.Gathering.{ServesGroup, ServesUpTo};
ghost use Rattle.group_plans.specs.Groups.{ServesGroups, gathered, own_task, serving_walks};

fn what_packs()
    ensures all_in_one { IsPacking triangle (1 ∷ 1 ∷ 1 ∷ []) 1 }
    ensures two { IsPacking triangle (2 ∷ 1 ∷ 2 ∷ []) 2 }
    ensures each_alone { IsPacking far_triangle (1 ∷ 2 ∷ 3 ∷ []) 3 }
    ensures nothing { IsPacking lone_depot [] 0 }
{}

fn what_serves_groups()
    ensures two { ServesGroups triangle (2 ∷ 1 ∷ 2 ∷ []) 2 (second_walk ∷ outer_walk ∷ []) }
    ensures exchanged { ¬ (ServesGroups triangle (2 ∷ 1 ∷ 2 ∷ []) 2 (outer_walk ∷ second_walk ∷ [])) }
    ensures one_missing { ¬ (ServesGroups triangle (2 ∷ 1 ∷ 2 ∷ []) 2 (second_walk ∷ [])) }
    ensures unserved { ¬ (ServesGroups triangle (2 ∷ 1 ∷ 2 ∷ []) 2 ([] ∷ outer_walk ∷ [])) }
    ensures nothing { ServesGroups lone_depot [] 0 [] }
{}

fn how_many_walks_serve()
    ensures one { serving_walks ([] ∷ second_walk ∷ (crossing 1 ∷ []) ∷ []) ≡ 1 }
    ensures none { serving_walks [] ≡ 0 }
{}

fn what_is_gathered()
    ensures own { own_task 2 2 1 ≡ on_street 1 ∷ [] }
    ensures other { own_task 1 2 1 ≡ [] }
    ensures second { gathered (2 ∷ 1 ∷ 2 ∷ []) 2 3 ≡ on_street 1 ∷ on_street 3 ∷ [] }
    ensures empty { gathered (2 ∷ 1 ∷ 2 ∷ []) 3 3 ≡ [] }
{}

fn what_serves_a_group()
    ensures any_order { ServesGroup triangle (2 ∷ 1 ∷ 2 ∷ []) 2 (against_street 3 ∷ on_street 1 ∷ []) }
    ensures one_missing { ¬ (ServesGroup triangle (2 ∷ 1 ∷ 2 ∷ []) 2 (on_street 1 ∷ [])) }
    ensures other_group { ¬ (ServesGroup triangle (2 ∷ 1 ∷ 2 ∷ []) 2 (on_street 2 ∷ [])) }
{}

fn what_serves_up_to_a_group()
    ensures first { ServesUpTo triangle (2 ∷ 1 ∷ 2 ∷ []) 1 ((on_street 2 ∷ []) ∷ []) }
    ensures none { ¬ (ServesUpTo triangle (2 ∷ 1 ∷ 2 ∷ []) 1 []) }
    ensures other { ¬ (ServesUpTo triangle (2 ∷ 1 ∷ 2 ∷ []) 1 ((on_street 1 ∷ []) ∷ [])) }
{}
