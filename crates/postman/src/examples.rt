// Small data on which a fact that no call decides holds, and on which it does not.
ghost use Rattle.std.specs.Prelude.{◌≡◌, ℕ, ◌≤◌, [], ◌∷◌, true, false, count_by};
ghost use Rattle.carp_base.specs.declared.fail.Fail.TheVariants.{Memory as OutOfMemory, Refused};
ghost use Rattle.plan_model.specs.Plans.{walk_cost};
ghost use Rattle.postman.specs.Examples.{free_streets, idle_trip, no_street, once_more, one_shore, one_street, out_and_back, over, served_twice, street_apart};
ghost use Rattle.postman.specs.Refusals.{RefusesApart};
ghost use Rattle.postman.specs.Rounds.{AreJoined, IsFirstApart, IsJoined, IsLeastRound, IsRound, IsShownRound, ShowLeast, deadheads_in, idles};
ghost use Rattle.postman.specs.Trails.{IsCheapRound, IsSpent, IsStart, is_service, left_at, one_each, worth_left};
ghost use Rattle.postman.specs.declared.fault.PostmanFault.TheVariants.{NotJoined};

fn rounds_of_a_street()
    ensures back { IsRound one_street out_and_back }
    ensures more { IsRound one_street once_more }
    ensures twice { ¬ (IsRound one_street served_twice) }
    ensures away { ¬ (IsRound one_street (over true true ∷ [])) }
    ensures none { ¬ (IsRound one_street []) }
    ensures cost { walk_cost one_street out_and_back ≡ 12 }
    ensures deadheads { deadheads_in out_and_back ≡ 1 }
    ensures idles_once { (e : ℕ) → count_by (idles e) out_and_back ≤ 1 }
    ensures idles_more { ¬ ((e : ℕ) → count_by (idles e) once_more ≤ 1) }
{}

fn least_rounds()
    ensures least { IsLeastRound no_street [] }
    ensures dear { ¬ (IsLeastRound one_street once_more) }
    ensures shown { ShowLeast one_street one_shore 12 }
    ensures off { ¬ (ShowLeast one_street one_shore 13) }
    ensures all { IsShownRound no_street [] [] 0 }
    ensures not_all { ¬ (IsShownRound no_street [] [] 1) }
    ensures stays { IsShownRound free_streets [] [] 0 }
    ensures trip { IsRound free_streets idle_trip }
    ensures idle { ¬ (IsShownRound free_streets idle_trip [] 0) }
{}

fn joined_edges()
    ensures joined { IsJoined one_street 1 }
    ensures all { AreJoined one_street }
    ensures apart { ¬ (IsJoined street_apart 1) }
    ensures not_all { ¬ (AreJoined street_apart) }
    ensures first { IsFirstApart street_apart 1 }
    ensures other { ¬ (IsFirstApart street_apart 2) }
    ensures none { ¬ (IsFirstApart one_street 1) }
    ensures refused { RefusesApart street_apart (Refused (NotJoined 1)) }
    ensures memory { RefusesApart one_street OutOfMemory }
    ensures not_refused { ¬ (RefusesApart one_street (Refused (NotJoined 1))) }
{}

fn crossings_left()
    ensures served { is_service one_street 1 1 ≡ true }
    ensures deadhead { is_service one_street 1 2 ≡ false }
    ensures other { is_service street_apart 2 1 ≡ false }
    ensures worth { worth_left one_street one_each (2 ∷ []) ≡ 2 }
    ensures at_end { left_at one_street (2 ∷ []) 2 ≡ 2 }
    ensures elsewhere { left_at one_street (2 ∷ []) 3 ≡ 0 }
    ensures spent { IsSpent one_street (0 ∷ []) 1 }
    ensures not_spent { ¬ (IsSpent one_street (1 ∷ []) 1) }
    ensures start { IsStart one_street (2 ∷ []) (0 ∷ 0 ∷ 0 ∷ []) }
    ensures no_start { ¬ (IsStart one_street (1 ∷ []) (0 ∷ 0 ∷ 0 ∷ [])) }
    ensures cheap { IsCheapRound one_street (1 ∷ []) out_and_back }
    ensures dear { ¬ (IsCheapRound one_street (1 ∷ []) once_more) }
    ensures needless { ¬ (IsCheapRound free_streets (1 ∷ 1 ∷ []) idle_trip) }
{}
