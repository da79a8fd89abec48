// Small data on which a fact that no call decides holds, and on which it does not.
ghost use Rattle.std.specs.Prelude.{◌≡◌, [], ◌∷◌};
ghost use Rattle.task_tours.specs.Examples.{alley_out, lane_and_alley, lane_home, lane_out};
ghost use Rattle.local_moves.specs.Changes.{IsChange, IsSameService, IsSettledPlan, MovesOne, OpensOne, SwapsBetween, SwapsWithin, TakesOutTask, TurnsOne, other_direction};
ghost use Rattle.local_moves.specs.Examples.{detour};
ghost use Rattle.local_moves.specs.Offering.{IsSettledFrom};

fn services_turn()
    ensures turned { TurnsOne ((lane_out ∷ []) ∷ []) ((lane_home ∷ []) ∷ []) }
    ensures same { ¬ (TurnsOne ((lane_out ∷ []) ∷ []) ((lane_out ∷ []) ∷ [])) }
    ensures other_edge { ¬ (IsSameService lane_out alley_out) }
    ensures back { other_direction (other_direction lane_out) ≡ lane_out }
{}

fn services_move()
    ensures out { TakesOutTask lane_out ((lane_out ∷ []) ∷ []) ([] ∷ []) }
    ensures tour_stays { ¬ (TakesOutTask lane_out ((lane_out ∷ []) ∷ []) []) }
    ensures moved { MovesOne ((lane_out ∷ alley_out ∷ []) ∷ []) ((alley_out ∷ lane_home ∷ []) ∷ []) }
    ensures not_moved { ¬ (MovesOne [] []) }
    ensures opened { OpensOne ((lane_out ∷ alley_out ∷ []) ∷ []) ((lane_out ∷ []) ∷ (alley_out ∷ []) ∷ []) }
    ensures not_opened { ¬ (OpensOne [] ((lane_out ∷ []) ∷ [])) }
{}

fn services_change_places()
    ensures within { SwapsWithin ((lane_out ∷ alley_out ∷ []) ∷ []) ((alley_out ∷ lane_out ∷ []) ∷ []) }
    ensures not_within { ¬ (SwapsWithin [] []) }
    ensures between { SwapsBetween ((lane_out ∷ []) ∷ (alley_out ∷ []) ∷ []) ((alley_out ∷ []) ∷ (lane_out ∷ []) ∷ []) }
    ensures not_between { ¬ (SwapsBetween [] []) }
    ensures nothing { ¬ (IsChange [] []) }
{}

fn plans_are_settled()
    ensures nothing { IsSettledPlan lane_and_alley [] }
    ensures detour { ¬ (IsSettledPlan lane_and_alley (detour ∷ [])) }
{}

fn what_is_settled_from_a_plan()
    ensures nothing { IsSettledFrom lane_and_alley (detour ∷ []) [] }
    ensures idle_tour { ¬ (IsSettledFrom lane_and_alley (detour ∷ []) ([] ∷ [])) }
{}
