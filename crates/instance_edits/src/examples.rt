// Small data on which what the contracts speak of holds, and on which it does not.
ghost use Rattle.std.specs.Prelude.{◌≡◌, ◌≢◌, ◌^◌, ◌-◌, true, false, [], ◌∷◌, codes};
ghost use Rattle.carp_base.specs.declared.fail.Fail.TheVariants as fails;
ghost use Rattle.instance_edits.specs.declared.edit.Edit.TheVariants.{Cost, Service, Demand, Close};
ghost use Rattle.instance_edits.specs.declared.edit.EditFault.TheVariants.{Syntax, Unknown};
ghost use Rattle.instance_edits.specs.Edits.{AreKnown, IsClosed, IsKnown, changed, changed_from, closes, cost_added, demand_added, edited, service_added};
ghost use Rattle.instance_edits.specs.Texts.{BeginsWith, IsEditsText, IsFirstBad, HasShortNumbers, IsUnknownAt, IsUnreadAt, NoEditBegins, RefusesFirstBad, edit_text, two_numbers};
ghost use Rattle.instance_edits.specs.Examples.{late_edits, one_line, second_unknown, second_unread, some_edits, three_streets, two_streets, unended, wrong_edge};

fn a_closed_edge()
    ensures closed { IsClosed some_edits 2 }
    ensures dearer { ¬ (IsClosed some_edits 3) }
    ensures this { closes 2 (Close 2) ≡ true }
    ensures another { closes 3 (Close 2) ≡ false }
    ensures cost { closes 2 (Cost 2 0) ≡ false }
{}

fn an_edit_that_may_be()
    ensures cost { IsKnown three_streets [] (Cost 3 4) }
    ensures no_edge { ¬ (IsKnown three_streets [] (Cost 4 4)) }
    ensures service { IsKnown three_streets [] (Service 1 4) }
    ensures no_service { ¬ (IsKnown three_streets [] (Service 2 4)) }
    ensures demand { IsKnown three_streets [] (Demand 1 4) }
    ensures no_demand { ¬ (IsKnown three_streets [] (Demand 2 4)) }
    ensures close { IsKnown three_streets [] (Close 2) }
    ensures needed { ¬ (IsKnown three_streets [] (Close 1)) }
    ensures no_street { ¬ (IsKnown three_streets [] (Close 4)) }
    ensures again { ¬ (IsKnown three_streets (Close 2 ∷ []) (Close 2)) }
    ensures late { ¬ (IsKnown three_streets (Close 2 ∷ []) (Cost 2 4)) }
{}

fn edits_that_may_be()
    ensures known { AreKnown three_streets [] some_edits }
    ensures late { ¬ (AreKnown three_streets [] late_edits) }
{}

fn what_is_added()
    ensures cost { cost_added 3 (Cost 3 4) ≡ 4 }
    ensures other_cost { cost_added 2 (Cost 3 4) ≡ 0 }
    ensures no_cost { cost_added 3 (Service 3 4) ≡ 0 }
    ensures service { service_added 3 (Service 3 4) ≡ 4 }
    ensures other_service { service_added 2 (Service 3 4) ≡ 0 }
    ensures no_service { service_added 3 (Demand 3 4) ≡ 0 }
    ensures demand { demand_added 3 (Demand 3 4) ≡ 4 }
    ensures other_demand { demand_added 2 (Demand 3 4) ≡ 0 }
    ensures no_demand { demand_added 3 (Cost 3 4) ≡ 0 }
{}

fn the_edited_instance()
    ensures street { (changed three_streets some_edits 3).cost ≡ 14 }
    ensures closed { changed_from three_streets some_edits 1 1 ≡ [] }
    ensures last { changed_from three_streets some_edits 1 2 ≡ changed three_streets some_edits 3 ∷ [] }
    ensures edited { edited three_streets some_edits ≡ two_streets }
    ensures unchanged { edited three_streets [] ≡ three_streets }
    ensures other { edited three_streets some_edits ≢ three_streets }
{}

fn short_numbers()
    ensures short { HasShortNumbers (Cost 3 (10 ^ 12 - 1)) }
    ensures long { ¬ (HasShortNumbers (Cost 3 (10 ^ 12))) }
    ensures long_edge { ¬ (HasShortNumbers (Close (10 ^ 12))) }
{}

fn the_text_of_an_edit()
    ensures cost { edit_text (Cost 1 4) ≡ one_line }
    ensures close { edit_text (Close 1) ≡ wrong_edge }
    ensures other { edit_text (Close 1) ≢ one_line }
    ensures numbers { two_numbers (codes "cost ") 1 4 ≡ one_line }
{}

fn the_text_of_edits()
    ensures one { IsEditsText three_streets one_line (Cost 1 4 ∷ []) }
    ensures none { IsEditsText three_streets [] [] }
    ensures other { ¬ (IsEditsText three_streets one_line []) }
    ensures wrong { ¬ (IsEditsText three_streets wrong_edge (Close 1 ∷ [])) }
    ensures front { BeginsWith three_streets second_unread (Cost 1 4 ∷ []) (codes "x") }
    ensures not_whole { ¬ (BeginsWith three_streets second_unread (Cost 1 4 ∷ []) []) }
{}

fn a_text_that_begins_with_no_edit()
    ensures unended { NoEditBegins unended }
    ensures none { NoEditBegins [] }
    ensures line { ¬ (NoEditBegins one_line) }
{}

fn a_first_bad_line()
    ensures unread { IsUnreadAt three_streets second_unread 2 }
    ensures not_first { ¬ (IsUnreadAt three_streets second_unread 1) }
    ensures nothing { ¬ (IsUnreadAt three_streets one_line 2) }
    ensures unknown { IsUnknownAt three_streets second_unknown 2 }
    ensures known { ¬ (IsUnknownAt three_streets second_unknown 1) }
    ensures fault { IsFirstBad three_streets second_unknown (Unknown 2) }
    ensures other_fault { ¬ (IsFirstBad three_streets second_unknown (Syntax 2)) }
    ensures refusal { RefusesFirstBad three_streets second_unread (fails.Refused (Syntax 2)) }
    ensures memory { RefusesFirstBad three_streets one_line fails.Memory }
    ensures no_refusal { ¬ (RefusesFirstBad three_streets one_line (fails.Refused (Syntax 1))) }
{}
