// Small data on which a fact that no call decides holds, and on which it does not.
ghost use Rattle.std.specs.Prelude.{◌≡◌, true, false, [], ◌∷◌};
ghost use Rattle.carp_base.specs.declared.fault.InstanceFault.TheVariants.{CapacityOutOfRange, DepotOutOfRange, Loop};
ghost use Rattle.carp_base.specs.Problem.{IsEdgeNumber, IsIdle, IsRequired, TasksLead, edge_at, no_edge};
ghost use Rattle.carp_base.specs.Faults.{FaultNoLater, IsFirstFault};
ghost use Rattle.carp_base.specs.Allowed.{IsOf, IsRelation, IsSamePair, TakesOut, allows};
ghost use Rattle.carp_base.specs.Packings.{IsGroup, IsPacking, group_load, group_of};
ghost use Rattle.carp_base.specs.Examples.{busy_edge, first_forward, nothing, one_order, pair_in, pair_out, second_backward, second_forward, two_streets, two_tasks};

fn an_idle_edge()
    ensures idle { IsIdle no_edge }
    ensures busy { ¬ (IsIdle busy_edge) }
{}

fn a_number()
    ensures edge { IsEdgeNumber two_streets 2 }
    ensures no_edge { ¬ (IsEdgeNumber two_streets 3) }
    ensures required { IsRequired two_streets 1 }
    ensures other { ¬ (IsRequired two_streets 2) }
{}

fn an_edge_of_a_number()
    ensures first { (edge_at two_streets 1).v ≡ 2 }
    ensures last { (edge_at two_streets 2).v ≡ 3 }
    ensures zero { edge_at two_streets 0 ≡ no_edge }
    ensures past { edge_at two_streets 3 ≡ no_edge }
{}

fn a_path_leads_there()
    ensures there { TasksLead two_streets 1 (first_forward ∷ second_forward ∷ []) 3 }
    ensures back { TasksLead two_streets 3 (second_backward ∷ []) 2 }
    ensures turned { ¬ (TasksLead two_streets 1 (first_forward ∷ second_backward ∷ []) 3) }
    ensures unfinished { ¬ (TasksLead two_streets 1 (first_forward ∷ []) 3) }
{}

fn a_fault_before_another()
    ensures before { FaultNoLater (Loop 1) (Loop 2) }
    ensures after { ¬ (FaultNoLater (Loop 2) (Loop 1)) }
{}

fn a_first_fault()
    ensures first { IsFirstFault nothing (CapacityOutOfRange 0) }
    ensures second { ¬ (IsFirstFault nothing (DepotOutOfRange 0)) }
{}

fn a_relation()
    ensures on { IsOf pair_in 2 }
    ensures not_on { ¬ (IsOf pair_in 3) }
    ensures both_orders { IsRelation pair_in }
    ensures one_order { ¬ (IsRelation one_order) }
{}

fn an_allowed_pair()
    ensures pair { allows pair_in 1 2 ≡ true }
    ensures itself { allows pair_in 2 2 ≡ false }
    ensures zero_first { allows pair_in 0 2 ≡ false }
    ensures zero_second { allows pair_in 2 0 ≡ false }
    ensures past { allows pair_in 1 3 ≡ false }
{}

fn a_same_pair()
    ensures turned { IsSamePair 1 2 2 1 }
    ensures other { ¬ (IsSamePair 1 2 1 1) }
{}

fn a_pair_taken_out()
    ensures out { TakesOut pair_in pair_out 1 2 }
    ensures stays { ¬ (TakesOut pair_in pair_in 1 2) }
    ensures one_order { ¬ (TakesOut pair_in one_order 1 2) }
{}

fn a_group_of_an_edge()
    ensures first { group_of (5 ∷ 7 ∷ []) 1 ≡ 5 }
    ensures last { group_of (5 ∷ 7 ∷ []) 2 ≡ 7 }
    ensures zero { group_of (5 ∷ 7 ∷ []) 0 ≡ 0 }
    ensures group { IsGroup 2 2 }
    ensures no_group { ¬ (IsGroup 2 0) }
    ensures past { ¬ (IsGroup 2 3) }
{}

fn a_load_of_a_group()
    ensures one { group_load two_tasks (1 ∷ 2 ∷ []) 2 ≡ 1 }
    ensures both { group_load two_tasks (1 ∷ 1 ∷ []) 1 ≡ 2 }
    ensures other_edges_do_not_count { group_load two_streets (1 ∷ []) 1 ≡ 1 }
{}

fn a_packing()
    ensures packing { IsPacking two_tasks (2 ∷ 1 ∷ []) 2 }
    ensures overload { ¬ (IsPacking two_tasks (1 ∷ 1 ∷ []) 1) }
    ensures empty { ¬ (IsPacking two_tasks (1 ∷ 2 ∷ []) 3) }
    ensures out_of_range { ¬ (IsPacking two_tasks (1 ∷ 2 ∷ []) 1) }
    ensures one_missing { ¬ (IsPacking two_tasks (1 ∷ []) 1) }
{}
