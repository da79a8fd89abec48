// Networks, flows and cuts that are some, and that are none.
ghost use Rattle.std.specs.Prelude.{◌≡◌, true, false, [], ◌∷◌};
ghost use Rattle.flow_cut.specs.Flows.{IsNode, IsNetwork, IsFlow, IsSide, cut_room};
ghost use Rattle.flow_cut.specs.Laws.{AreBest};
ghost use Rattle.flow_cut.specs.Examples.{row, first_two, first_one};

fn a_row_is_a_network()
    ensures network { IsNetwork 3 row }
    ensures not_of_two { IsNetwork 2 row → ⊥ }
    ensures not_so_great { IsNetwork 2 (record { from = 1; to = 2; room = 1000000000000000001 } ∷ []) → ⊥ }
    ensures node { IsNode 3 3 }
    ensures not_0 { IsNode 3 0 → ⊥ }
    ensures not_4 { IsNode 3 4 → ⊥ }
{}

fn two_flow_through_the_row()
    ensures flow { IsFlow row 1 3 2 (2 ∷ 2 ∷ []) }
    ensures side { IsSide first_two 1 3 }
    ensures cut { cut_room row first_two ≡ 2 }
    ensures best { AreBest row 1 3 2 first_two }
{}

fn no_flow()
    ensures above_a_room { IsFlow row 1 3 3 (3 ∷ 3 ∷ []) → ⊥ }
    ensures out_of_balance { IsFlow row 1 3 3 (3 ∷ 2 ∷ []) → ⊥ }
    ensures of_this_value { IsFlow row 1 3 1 (2 ∷ 2 ∷ []) → ⊥ }
    ensures without_an_arc { IsFlow row 1 3 2 (2 ∷ []) → ⊥ }
{}

fn no_side()
    ensures without_the_source { IsSide (false ∷ true ∷ false ∷ []) 1 3 → ⊥ }
    ensures with_the_target { IsSide (true ∷ true ∷ true ∷ []) 1 3 → ⊥ }
    ensures from_no_node { IsSide first_two 0 3 → ⊥ }
{}

fn not_best()
    ensures not_greatest { AreBest row 1 3 1 first_two → ⊥ }
    ensures not_least { AreBest row 1 3 3 first_one → ⊥ }
{}
