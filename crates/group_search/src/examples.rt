// Small data on which a fact that no call decides holds, and on which it does not.
ghost use Rattle.std.specs.Prelude.{◌≡◌, [], ◌∷◌};
ghost use Rattle.group_search.specs.Flows.{between};
ghost use Rattle.group_search.specs.Violation.{AreViolated, IsViolated, cut, violation};
ghost use Rattle.group_search.specs.Examples.{both, flow_of, one_tour, row, two_tours};

fn what_flows()
    ensures joined { between one_tour 1 2 ≡ 1048576 }
    ensures apart { between two_tours 2 0 ≡ 2097152 }
    ensures out_of_both { cut one_tour both ≡ 2097152 }
    ensures out_of_one { cut one_tour (2 ∷ []) ≡ 2097152 }
    ensures out_of_none { cut one_tour [] ≡ 0 }
{}

fn how_much_is_violated()
    ensures one_tour { violation row one_tour both ≡ 2097152 }
    ensures two_tours { violation row two_tours both ≡ 0 }
    ensures a_part { violation row (flow_of 5242 2091910) both ≡ 10484 }
    ensures one_edge { violation row one_tour (1 ∷ []) ≡ 0 }
{}

fn what_is_violated()
    ensures one_tour { IsViolated row one_tour 20971 both }
    ensures two_tours { ¬ (IsViolated row two_tours 0 both) }
    ensures too_little { ¬ (IsViolated row one_tour 2097152 both) }
    ensures one_edge { ¬ (IsViolated row (flow_of 0 0) 20971 (1 ∷ [])) }
    ensures falling { ¬ (IsViolated row (flow_of 0 0) 20971 (2 ∷ 1 ∷ [])) }
{}

fn what_is_no_answer()
    ensures one_too_many { ¬ (AreViolated row one_tour 20971 0 (both ∷ [])) }
    ensures twice { ¬ (AreViolated row one_tour 20971 5 (both ∷ both ∷ [])) }
{}
