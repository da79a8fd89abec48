// Words that are plain, with the commands that they are, and words that are not.
ghost use Rattle.std.specs.Prelude.{◌≡◌, [], ◌∷◌, None, Some, codes};
ghost use Rattle.command_line.specs.Commands.{Solve, Check, Sheet, Make, Drill, Upgrade, Postman, Fleet, Edit, Improve};
ghost use Rattle.command_line.specs.Words.{command_of};

#[tactic(auto, unfolding(crate::specs::Words::is_option, crate::specs::Words::is_given))]
fn words_are_plain()
    ensures solve { command_of (codes "solve" ∷ codes "f" ∷ codes "c" ∷ []) ≡ Some (Solve (codes "f") (codes "c") 64 1) }
    ensures turns { command_of (codes "solve" ∷ codes "f" ∷ codes "c" ∷ codes "--turns" ∷ codes "1048576" ∷ []) ≡ Some (Solve (codes "f") (codes "c") 1048576 1) }
    ensures seed { command_of (codes "solve" ∷ codes "f" ∷ codes "c" ∷ codes "--seed" ∷ codes "007" ∷ []) ≡ Some (Solve (codes "f") (codes "c") 64 7) }
    ensures both { command_of (codes "solve" ∷ codes "f" ∷ codes "c" ∷ codes "--turns" ∷ codes "1" ∷ codes "--seed" ∷ codes "0" ∷ []) ≡ Some (Solve (codes "f") (codes "c") 1 0) }
    ensures other_order { command_of (codes "solve" ∷ codes "f" ∷ codes "c" ∷ codes "--seed" ∷ codes "0" ∷ codes "--turns" ∷ codes "1" ∷ []) ≡ Some (Solve (codes "f") (codes "c") 1 0) }
    ensures digits { command_of (codes "solve" ∷ codes "f" ∷ codes "c" ∷ codes "--seed" ∷ codes "999999999999999999" ∷ []) ≡ Some (Solve (codes "f") (codes "c") 64 999999999999999999) }
    ensures check { command_of (codes "check" ∷ codes "f" ∷ codes "c" ∷ []) ≡ Some (Check (codes "f") (codes "c")) }
    ensures sheet { command_of (codes "sheet" ∷ codes "f" ∷ codes "c" ∷ []) ≡ Some (Sheet (codes "f") (codes "c")) }
    ensures make { command_of (codes "make" ∷ codes "f" ∷ []) ≡ Some (Make (codes "f") 1) }
    ensures make_seed { command_of (codes "make" ∷ codes "f" ∷ codes "--seed" ∷ codes "7" ∷ []) ≡ Some (Make (codes "f") 7) }
    ensures drill { command_of (codes "drill" ∷ []) ≡ Some (Drill 4 1) }
    ensures drill_both { command_of (codes "drill" ∷ codes "--seed" ∷ codes "7" ∷ codes "--turns" ∷ codes "9" ∷ []) ≡ Some (Drill 9 7) }
    ensures postman { command_of (codes "postman" ∷ codes "f" ∷ []) ≡ Some (Postman (codes "f")) }
    ensures fleet { command_of (codes "fleet" ∷ codes "f" ∷ []) ≡ Some (Fleet (codes "f") 64) }
    ensures fleet_turns { command_of (codes "fleet" ∷ codes "f" ∷ codes "--turns" ∷ codes "9" ∷ []) ≡ Some (Fleet (codes "f") 9) }
    ensures edit { command_of (codes "edit" ∷ codes "f" ∷ codes "c" ∷ codes "e" ∷ codes "n" ∷ codes "k" ∷ []) ≡ Some (Edit (codes "f") (codes "c") (codes "e") (codes "n") (codes "k")) }
    ensures improve { command_of (codes "improve" ∷ codes "f" ∷ codes "c" ∷ codes "n" ∷ []) ≡ Some (Improve (codes "f") (codes "c") (codes "n") 64 1) }
    ensures improve_both { command_of (codes "improve" ∷ codes "f" ∷ codes "c" ∷ codes "n" ∷ codes "--seed" ∷ codes "7" ∷ codes "--turns" ∷ codes "9" ∷ [])
        ≡ Some (Improve (codes "f") (codes "c") (codes "n") 9 7) }
    ensures upgrade { command_of (codes "upgrade" ∷ codes "f" ∷ codes "c" ∷ codes "n" ∷ []) ≡ Some (Upgrade (codes "f") (codes "c") (codes "n")) }
{}

#[tactic(auto, unfolding(crate::specs::Words::is_option, crate::specs::Words::is_given))]
fn words_are_not_plain()
    ensures no_word { command_of [] ≡ None }
    ensures no_verb { command_of (codes "Solve" ∷ codes "f" ∷ codes "c" ∷ []) ≡ None }
    ensures one_name { command_of (codes "solve" ∷ codes "f" ∷ []) ≡ None }
    ensures three_names { command_of (codes "check" ∷ codes "f" ∷ codes "c" ∷ codes "n" ∷ []) ≡ None }
    ensures equal_names { command_of (codes "upgrade" ∷ codes "f" ∷ codes "c" ∷ codes "f" ∷ []) ≡ None }
    ensures improved_in_place { command_of (codes "improve" ∷ codes "f" ∷ codes "c" ∷ codes "c" ∷ []) ≡ None }
    ensures improve_two_names { command_of (codes "improve" ∷ codes "f" ∷ codes "c" ∷ []) ≡ None }
    ensures improve_no_turns { command_of (codes "improve" ∷ codes "f" ∷ codes "c" ∷ codes "n" ∷ codes "--turns" ∷ codes "0" ∷ []) ≡ None }
    ensures empty_name { command_of (codes "check" ∷ [] ∷ codes "c" ∷ []) ≡ None }
    ensures help { command_of (codes "--help" ∷ []) ≡ None }
    ensures option_first { command_of (codes "solve" ∷ codes "--seed" ∷ codes "1" ∷ codes "f" ∷ codes "c" ∷ []) ≡ None }
    ensures option_twice { command_of (codes "solve" ∷ codes "f" ∷ codes "c" ∷ codes "--seed" ∷ codes "1" ∷ codes "--seed" ∷ codes "1" ∷ []) ≡ None }
    ensures option_of_another { command_of (codes "check" ∷ codes "f" ∷ codes "c" ∷ codes "--seed" ∷ codes "1" ∷ []) ≡ None }
    ensures make_turns { command_of (codes "make" ∷ codes "f" ∷ codes "--turns" ∷ codes "1" ∷ []) ≡ None }
    ensures drill_name { command_of (codes "drill" ∷ codes "f" ∷ []) ≡ None }
    ensures fleet_seed { command_of (codes "fleet" ∷ codes "f" ∷ codes "--seed" ∷ codes "1" ∷ []) ≡ None }
    ensures joined { command_of (codes "solve" ∷ codes "f" ∷ codes "c" ∷ codes "--turns=9" ∷ []) ≡ None }
    ensures no_turns { command_of (codes "solve" ∷ codes "f" ∷ codes "c" ∷ codes "--turns" ∷ codes "0" ∷ []) ≡ None }
    ensures more_turns { command_of (codes "solve" ∷ codes "f" ∷ codes "c" ∷ codes "--turns" ∷ codes "1048577" ∷ []) ≡ None }
    ensures long_number { command_of (codes "solve" ∷ codes "f" ∷ codes "c" ∷ codes "--seed" ∷ codes "0000000000000000001" ∷ []) ≡ None }
    ensures no_number { command_of (codes "solve" ∷ codes "f" ∷ codes "c" ∷ codes "--seed" ∷ []) ≡ None }
    ensures sign { command_of (codes "solve" ∷ codes "f" ∷ codes "c" ∷ codes "--seed" ∷ codes "+1" ∷ []) ≡ None }
{}
