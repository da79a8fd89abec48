// Changes that are as told, and changes that are not.
ghost use Rattle.std.specs.Prelude.{◌≢◌, ℕ, ◌-◌, ◌^◌, [], ◌∷◌, take, Ok, Err};
ghost use Rattle.carp_outside.specs.Causes.{RoseBy, Rose, HasCause};
ghost use Rattle.carp_outside.specs.Calls.{IsListed, AddsCall, empty_log};
ghost use Rattle.carp_outside.specs.Told.{IsPiece, HoldsExactly, HoldsFront, SameContents, WroteFront};
ghost use Rattle.carp_outside.specs.Files.{SameRooms, IsMadeReady};
ghost use Rattle.carp_outside.specs.MemShelf.{SameCounts, given_of, piece_of, torn_of};
ghost use Rattle.carp_outside.specs.Examples.{nowhere, alone, everywhere};

use crate::MemShelf;

fn counts_rise()
    ensures rose { Rose 3 4 }
    ensures at_the_last_value { Rose (2 ^ 64 - 1) (2 ^ 64 - 1) }
    ensures stood { Rose 3 3 → ⊥ }
    ensures rose_by { RoseBy 2 3 5 }
    ensures rose_by_less { RoseBy 3 3 5 → ⊥ }
{}

fn faults_have_causes()
    ensures cause { HasCause {T = ℕ} {E = ℕ} 3 4 (Err 0) }
    ensures no_fault { HasCause {T = ℕ} {E = ℕ} 3 3 (Ok 0) }
    ensures no_cause { HasCause {T = ℕ} {E = ℕ} 3 3 (Err 0) → ⊥ }
    ensures fell { HasCause {T = ℕ} {E = ℕ} 3 2 (Ok 0) → ⊥ }
{}

fn calls_are_counted()
    ensures fails { AddsCall {T = ℕ} {E = ℕ} (empty_log []) (record { made = 1; listed = []; faults = 1 }) (Err 0) }
    ensures not_made { AddsCall {T = ℕ} {E = ℕ} (empty_log []) (empty_log []) (Ok 0) → ⊥ }
    ensures no_fault { AddsCall {T = ℕ} {E = ℕ} (empty_log []) (record { made = 1; listed = []; faults = 1 }) (Ok 0) → ⊥ }
    ensures listed { IsListed (empty_log (4 ∷ 1 ∷ [])) }
    ensures not_listed { IsListed (empty_log (2 ∷ [])) → ⊥ }
    ensures past_all_numbers { IsListed (record { made = 2 ^ 64 - 1; listed = (2 ^ 64 - 1) ∷ []; faults = 0 }) → ⊥ }
{}

fn pieces_are_of_the_file()
    ensures piece { IsPiece (7 ∷ 8 ∷ 9 ∷ []) 1 2 (8 ∷ 9 ∷ 0 ∷ []) }
    ensures end { IsPiece (7 ∷ []) 1 0 (0 ∷ []) }
    ensures other_bytes { IsPiece (7 ∷ 8 ∷ 9 ∷ []) 1 2 (7 ∷ 8 ∷ []) → ⊥ }
    ensures none_before_the_end { IsPiece (7 ∷ []) 0 0 (0 ∷ []) → ⊥ }
    ensures past_the_end { IsPiece (7 ∷ []) 0 2 (7 ∷ 0 ∷ []) → ⊥ }
{}

fn names_hold_what_is_kept()
    ensures kept { HoldsExactly [] (1 ∷ 2 ∷ []) nowhere (alone (1 ∷ 2 ∷ [])) }
    ensures other_bytes { HoldsExactly [] (1 ∷ 2 ∷ []) nowhere (alone (1 ∷ [])) → ⊥ }
    ensures other_names { HoldsExactly [] (1 ∷ 2 ∷ []) nowhere (everywhere (1 ∷ 2 ∷ [])) → ⊥ }
    ensures same { SameContents (alone (1 ∷ [])) (alone (1 ∷ [])) }
    ensures changed { SameContents nowhere (alone (1 ∷ [])) → ⊥ }
{}

fn a_failed_keep_leaves_a_front()
    ensures front { HoldsFront [] (1 ∷ 2 ∷ []) nowhere (alone (1 ∷ [])) }
    ensures same { HoldsFront [] (1 ∷ 2 ∷ []) nowhere nowhere }
    ensures no_front { HoldsFront [] (1 ∷ 2 ∷ []) nowhere (alone (2 ∷ [])) → ⊥ }
{}

fn a_torn_keep_leaves_its_front()
    ensures front { HoldsExactly [] (take 1 (1 ∷ 2 ∷ [])) (alone (3 ∷ [])) (alone (1 ∷ [])) }
    ensures fewer { HoldsExactly [] (take 5 (1 ∷ 2 ∷ [])) nowhere (alone (1 ∷ 2 ∷ [])) }
    ensures whole { HoldsExactly [] (take 1 (1 ∷ 2 ∷ [])) nowhere (alone (1 ∷ 2 ∷ [])) → ⊥ }
    ensures old { HoldsExactly [] (take 1 (1 ∷ 2 ∷ [])) (alone (3 ∷ [])) (alone (3 ∷ [])) → ⊥ }
{}

fn fronts_are_written()
    ensures front { WroteFront (1 ∷ 2 ∷ 3 ∷ []) (9 ∷ []) (9 ∷ 1 ∷ 2 ∷ []) }
    ensures no_front { WroteFront (1 ∷ 2 ∷ 3 ∷ []) (9 ∷ []) (9 ∷ 2 ∷ []) → ⊥ }
{}

fn rooms_never_fall()
    ensures first { IsMadeReady [] 0 nowhere (alone 0) }
    ensures more { IsMadeReady [] 3 (alone 2) (alone 3) }
    ensures fell { IsMadeReady [] 2 (alone 3) (alone 2) → ⊥ }
    ensures other_names { IsMadeReady [] 2 nowhere (everywhere 2) → ⊥ }
    ensures same { SameRooms (alone 3) (alone 3) }
    ensures changed { SameRooms nowhere (alone 0) → ⊥ }
{}

fn counts_stay(before: &MemShelf, now: &MemShelf)
    ensures same { SameCounts before.now before.now }
    ensures given { given_of now.now ≢ given_of before.now → SameCounts before.now now.now → ⊥ }
    ensures piece { piece_of now.now ≢ piece_of before.now → SameCounts before.now now.now → ⊥ }
    ensures torn { torn_of now.now ≢ torn_of before.now → SameCounts before.now now.now → ⊥ }
{}
