// Small data on which a fact that no call decides holds, and on which it does not.
ghost use Rattle.std.specs.Prelude.{◌≡◌, [], ◌∷◌, true, false};
ghost use Rattle.path_scanning.specs.declared.rule.Rule.TheVariants.{Far, Half};
ghost use Rattle.path_scanning.specs.declared.rule.Tie.TheVariants.{Farther, Nearer, Cheaper, Dearer};
ghost use Rattle.path_scanning.specs.Ties.{KeyNoLater, TaskNoLater, tie_of};
ghost use Rattle.path_scanning.specs.Scans.{FitsNext, IsScanned, TakesNext, served_after, tour_start};
ghost use Rattle.path_scanning.specs.Examples.{half_price, lane_town, whole_price};

fn what_half_compares()
    ensures just_half { tie_of Half 4 2 ≡ Farther }
    ensures more { tie_of Half 5 3 ≡ Nearer }
{}

fn keys_in_order()
    ensures lesser { KeyNoLater (1 ∷ 9 ∷ []) (2 ∷ 0 ∷ []) }
    ensures same { KeyNoLater (1 ∷ 2 ∷ []) (1 ∷ 2 ∷ []) }
    ensures greater { ¬ (KeyNoLater (1 ∷ 3 ∷ []) (1 ∷ 2 ∷ [])) }
{}

fn tasks_in_order()
    ensures cheaper { TaskNoLater Cheaper half_price whole_price }
    ensures dearer { TaskNoLater Dearer whole_price half_price }
    ensures nearer { TaskNoLater Nearer half_price whole_price }
    ensures farther { ¬ (TaskNoLater Farther half_price whole_price) }
{}

fn what_fits()
    ensures whole { FitsNext lane_town (tour_start lane_town (false ∷ [])) 1 }
    ensures done { ¬ (FitsNext lane_town (tour_start lane_town (true ∷ [])) 1) }
    ensures loaded { ¬ (FitsNext lane_town (record { served = false ∷ []; at = 1; load = 1 }) 1) }
{}

fn where_a_tour_ends()
    ensures all_served { TakesNext lane_town Far (tour_start lane_town (true ∷ [])) [] }
    ensures one_fits { ¬ (TakesNext lane_town Far (tour_start lane_town (false ∷ [])) []) }
{}

fn a_plan_without_tours()
    ensures unserved { ¬ (IsScanned lane_town Far []) }
{}

fn what_tasks_serve()
    ensures marked { served_after (false ∷ false ∷ []) (record { edge = 2; forward = false } ∷ []) ≡ false ∷ true ∷ [] }
{}
