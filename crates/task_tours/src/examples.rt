// Small data on which a fact that no call decides holds, and on which it does not.
ghost use Rattle.std.specs.Prelude.{◌≡◌, [], ◌∷◌};
ghost use Rattle.task_tours.specs.Tours.{AreLawfulTours, AreServedOnce, IsStand, JoinsTasks, ToursDeadhead, all_tasks, plan_tours, tour_load};
ghost use Rattle.task_tours.specs.Examples.{alley_out, free, lane_and_alley, lane_home, lane_out, lane_walk};

fn where_a_tour_can_stand()
    ensures depot { IsStand lane_and_alley 1 }
    ensures lane_end { IsStand lane_and_alley 2 }
    ensures alley_end { ¬ (IsStand lane_and_alley 3) }
{}

fn tours_of_a_plan()
    ensures tasks { plan_tours (lane_walk ∷ [] ∷ []) ≡ (lane_out ∷ []) ∷ [] ∷ [] }
    ensures in_order { all_tasks ((lane_home ∷ []) ∷ [] ∷ (lane_out ∷ []) ∷ []) ≡ lane_home ∷ lane_out ∷ [] }
    ensures load { tour_load lane_and_alley (lane_home ∷ lane_out ∷ []) ≡ 4 }
    ensures other_direction { ¬ (JoinsTasks lane_and_alley (lane_home ∷ []) lane_walk) }
{}

fn what_is_served_once()
    ensures once { AreServedOnce lane_and_alley (lane_home ∷ []) }
    ensures never { ¬ (AreServedOnce lane_and_alley []) }
    ensures twice { ¬ (AreServedOnce lane_and_alley (lane_out ∷ lane_home ∷ [])) }
    ensures alley { ¬ (AreServedOnce lane_and_alley (lane_out ∷ alley_out ∷ [])) }
{}

fn lawful_tours()
    ensures lane { AreLawfulTours lane_and_alley ((lane_out ∷ []) ∷ [] ∷ []) }
    ensures twice { ¬ (AreLawfulTours lane_and_alley ((lane_out ∷ []) ∷ (lane_out ∷ []) ∷ [])) }
{}

fn deadheads_of_tours()
    ensures none { ToursDeadhead lane_and_alley free [] 0 }
    ensures some { ¬ (ToursDeadhead lane_and_alley free [] 1) }
{}
