// Matchings, sets and packings that are some, and that are none.
ghost use Rattle.std.specs.Prelude.{◌≡◌, ◌+◌, ◌-◌, ◌*◌, true, false, ◌==◌, nat_lt};
ghost use Rattle.blossom_match.specs.Matching.{Apart, AreDistinct, AreLaminar, IsOdd, IsPacking, IsPerfect, matching_cost, members, parts, separating, total};
ghost use Rattle.blossom_match.specs.Answer.{IsListed, is_among};

fn sums_and_counts()
    ensures sum { total 4 (λ v. v * v) ≡ 14 }
    ensures none { total 0 (λ v. 5) ≡ 0 }
    ensures three { members 5 (λ v. nat_lt v 3) ≡ 3 }
    ensures odd { IsOdd 5 (λ v. nat_lt v 3) }
    ensures even { IsOdd 5 (λ v. nat_lt v 2) → ⊥ }
    ensures one_parts { parts true false ≡ true }
    ensures other_parts { parts false true ≡ true }
    ensures both_do_not { parts true true ≡ false }
    ensures neither_does { parts false false ≡ false }
{}

fn one_pair()
    ensures perfect { IsPerfect 2 (λ v. 1 - v) }
    ensures not_itself { IsPerfect 2 (λ v. v) → ⊥ }
    ensures not_outside { IsPerfect 2 (λ v. v + 1) → ⊥ }
    ensures cost { matching_cost 2 (λ u v. 5) (λ v. 1 - v) ≡ 5 }
{}

fn singles_separate_once_each()
    ensures apart { separating 2 (λ s v. s == v) (λ s. 3) 0 1 ≡ 6 }
    ensures whole { separating 2 (λ s v. true) (λ s. 3) 0 1 ≡ 0 }
    ensures too_much { IsPacking 2 (λ u v. 2) 2 (λ s v. s == v) (λ s. 3) → ⊥ }
{}

fn sets_that_meet_are_nested()
    ensures disjoint { Apart 3 (λ v. v == 0) (λ v. v == 2) }
    ensures not_disjoint { Apart 3 (λ v. nat_lt v 2) (λ v. nat_lt v 1) → ⊥ }
    ensures crossing { AreLaminar 3 (λ v. nat_lt v 2) (λ v. nat_lt 0 v) → ⊥ }
    ensures same { AreDistinct 3 (λ v. nat_lt v 2) (λ v. nat_lt v 2) → ⊥ }
{}

fn a_list_of_two()
    ensures first { is_among 2 (λ j. 2 * j + 1) 0 ≡ true }
    ensures second { is_among 2 (λ j. 2 * j + 1) 2 ≡ true }
    ensures other { is_among 2 (λ j. 2 * j + 1) 1 ≡ false }
    ensures not_ascending { IsListed 4 2 (λ j. 3) → ⊥ }
    ensures not_from_1 { IsListed 4 1 (λ j. 0) → ⊥ }
    ensures not_past_the_last { IsListed 4 1 (λ j. 5) → ⊥ }
{}
