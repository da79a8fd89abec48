// Small data on which definitions are true, and on which they are not.
ghost use Rattle.std.specs.Prelude.{[], ◌∷◌};
ghost use Rattle.plan_model.specs.Examples.{one_street, one_vertex};
ghost use Rattle.task_tours.specs.Shorts.{IsAllowedPlan, IsShortPlan};

fn short_plans()
    ensures nothing_to_serve { IsShortPlan one_vertex [] }
    ensures one_tour_too_many { ¬ (IsShortPlan one_vertex ([] ∷ [])) }
    ensures not_lawful { ¬ (IsShortPlan one_street []) }
{}

fn allowed_plans()
    ensures idle_tour { IsAllowedPlan one_vertex ([] ∷ []) }
    ensures not_lawful { ¬ (IsAllowedPlan one_street []) }
{}
