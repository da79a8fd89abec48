// Small data on which a fact that no call decides holds, and on which it does not.
ghost use Rattle.std.specs.Prelude.{◌≡◌, ◌==◌, ◌||◌, true, false, [], ◌∷◌, Ok, Some, None};
ghost use Rattle.plan_model.specs.declared.verdict.Verdict.TheVariants.{Lawful, Broken, NotServed};
ghost use Rattle.plan_model.specs.Plans.{IsOnEdges, crosses, deadheads_on, deadheads_over};
ghost use Rattle.plan_model.specs.Verdicts.{VerdictNoLater, IsFailing};
ghost use Rattle.plan_model.specs.Laws.{IsLowerBound};
ghost use Rattle.plan_model.specs.Offers.{AfterOffer};
ghost use Rattle.plan_model.specs.Examples.{one_vertex, one_street, street_in, street_out, two_streets_meet, there_and_back, first_step, second_step, fresh, paid, foul};

fn steps_on_edges()
    ensures on { IsOnEdges one_street (first_step ∷ []) }
    ensures off { ¬ (IsOnEdges one_street (second_step ∷ [])) }
{}

fn an_edge_crosses_a_set()
    ensures last_end_inside { crosses (λ v. v == 2) street_in ≡ true }
    ensures first_end_inside { crosses (λ v. v == 3) street_out ≡ true }
    ensures both_inside { crosses (λ v. (v == 1) || (v == 2)) street_in ≡ false }
    ensures both_outside { crosses (λ v. v == 3) street_in ≡ false }
{}

fn deadheads_of_a_plan()
    ensures beside_a_service { deadheads_on 1 there_and_back ≡ 1 }
    ensures both_directions { deadheads_on 2 there_and_back ≡ 2 }
    ensures other_edge { deadheads_on 3 there_and_back ≡ 0 }
    ensures over_a_set { deadheads_over two_streets_meet (λ v. v == 2) there_and_back ≡ 3 }
    ensures not_within { deadheads_over two_streets_meet (λ v. (v == 2) || (v == 3)) there_and_back ≡ 1 }
    ensures on_no_edge { deadheads_over one_vertex (λ v. true) there_and_back ≡ 0 }
{}

fn a_verdict_before_another()
    ensures kind { VerdictNoLater (Broken 2 1) (NotServed 1) }
    ensures step { VerdictNoLater (Broken 1 2) (Broken 1 3) }
    ensures after { ¬ (VerdictNoLater (Broken 2 1) (Broken 1 3)) }
{}

fn a_verdict_that_fails()
    ensures broken { IsFailing (Broken 1 1) }
    ensures lawful { ¬ (IsFailing (Lawful 0)) }
{}

fn a_lower_bound()
    ensures zero { IsLowerBound one_vertex 0 }
    ensures one { ¬ (IsLowerBound one_vertex 1) }
{}

fn a_lawful_offer()
    ensures lawful { AfterOffer one_vertex (Ok (Some [])) fresh paid }
    ensures no_foul { ¬ (AfterOffer one_vertex (Ok (Some [])) fresh foul) }
{}

fn an_unlawful_offer()
    ensures foul { AfterOffer one_vertex (Ok (Some ((first_step ∷ []) ∷ []))) fresh foul }
    ensures not_lawful { ¬ (AfterOffer one_vertex (Ok (Some ((first_step ∷ []) ∷ []))) fresh paid) }
{}

fn no_offer()
    ensures forgets { AfterOffer one_vertex (Ok None) paid (record { fouls = 0; least = Some 0; last = None }) }
    ensures keeps { ¬ (AfterOffer one_vertex (Ok None) paid paid) }
{}
