// Small data on which a fact that no call decides holds, and on which it does not.
ghost use Rattle.std.specs.Prelude.{◌≡◌, [], ◌∷◌, true, false};
ghost use Rattle.carp_base.specs.declared.fail.Fail.TheVariants.{Memory};
ghost use Rattle.cut_pool.specs.Shores.{Belongs, IsShore, is_in, need, required_crossings, touched, touches};
ghost use Rattle.cut_pool.specs.Pools.{IsHeldAs, IsShoreNumber, RefusesShore, shore_at};
ghost use Rattle.cut_pool.specs.Examples.{in_a_row, loaded_street, side_by_side, two_loads};

fn a_shore()
    ensures rising { IsShore (2 ∷ 3 ∷ []) }
    ensures falling { ¬ (IsShore (3 ∷ 2 ∷ [])) }
    ensures twice { ¬ (IsShore (2 ∷ 2 ∷ [])) }
    ensures empty { ¬ (IsShore []) }
    ensures inside { is_in (2 ∷ 3 ∷ []) 3 ≡ true }
    ensures outside { is_in (2 ∷ 3 ∷ []) 1 ≡ false }
{}

fn a_shore_of_an_instance()
    ensures belongs { Belongs (in_a_row 2) (2 ∷ 3 ∷ []) }
    ensures depot { ¬ (Belongs (in_a_row 2) (1 ∷ 2 ∷ [])) }
    ensures past_the_last { ¬ (Belongs (in_a_row 2) (3 ∷ 4 ∷ [])) }
    ensures zero { ¬ (Belongs (in_a_row 2) (0 ∷ 2 ∷ [])) }
{}

fn required_edges_at_a_border()
    ensures one_end { required_crossings (in_a_row 2) (is_in (2 ∷ 3 ∷ [])) ≡ 1 }
    ensures two_edges { required_crossings (in_a_row 2) (is_in (2 ∷ [])) ≡ 2 }
    ensures required_alone { required_crossings (side_by_side 2) (is_in (2 ∷ [])) ≡ 2 }
    ensures both_ends_once { touched (in_a_row 2) (is_in (2 ∷ 3 ∷ [])) ≡ 3 }
    ensures one_end_touches { touched (in_a_row 2) (is_in (3 ∷ [])) ≡ 1 }
    ensures touches_none { touches (is_in (3 ∷ [])) (loaded_street 1 2 1) ≡ false }
{}

fn what_a_set_needs()
    ensures rounded_up { need (in_a_row 2) (is_in (2 ∷ 3 ∷ [])) ≡ 3 }
    ensures divided { need (in_a_row 3) (is_in (2 ∷ 3 ∷ [])) ≡ 1 }
    ensures two_vehicles { need two_loads (is_in (2 ∷ [])) ≡ 2 }
    ensures nothing { need (side_by_side 2) (is_in (2 ∷ [])) ≡ 0 }
    ensures parity_alone { need (side_by_side 3) (is_in (2 ∷ [])) ≡ 1 }
{}

fn a_number_in_a_pool()
    ensures last { IsShoreNumber ((2 ∷ []) ∷ (3 ∷ []) ∷ []) 2 }
    ensures zero { ¬ (IsShoreNumber ((2 ∷ []) ∷ []) 0) }
    ensures past_the_last { ¬ (IsShoreNumber ((2 ∷ []) ∷ []) 2) }
    ensures second { shore_at ((2 ∷ []) ∷ (3 ∷ []) ∷ []) 2 ≡ 3 ∷ [] }
    ensures of_none { shore_at ((2 ∷ []) ∷ []) 0 ≡ [] }
    ensures held { IsHeldAs ((2 ∷ []) ∷ (3 ∷ []) ∷ []) (3 ∷ []) 2 }
    ensures other { ¬ (IsHeldAs ((2 ∷ []) ∷ (3 ∷ []) ∷ []) (2 ∷ []) 2) }
{}

fn a_shore_refused()
    ensures new { RefusesShore [] (2 ∷ []) Memory }
    ensures held { ¬ (RefusesShore ((2 ∷ []) ∷ []) (2 ∷ []) Memory) }
{}
