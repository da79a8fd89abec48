// Small data on which a fact that no call decides holds, and on which it does not.
ghost use Rattle.std.specs.Prelude.{◌≡◌, [], ◌∷◌, false, true};
ghost use Rattle.ruin_recreate.specs.Boards.{IsBoard, IsBoardOf, demand_of, depot, edge_of, end_of, is_forward, link, other_way, start_of, turned};
ghost use Rattle.ruin_recreate.specs.Examples.{HasNumbers, bare, two_lanes};

use crate::board::Board;

fn where_stops_are()
    ensures depot_starts { start_of two_lanes depot ≡ 1 }
    ensures depot_ends { end_of two_lanes depot ≡ 1 }
    ensures forward_starts { start_of two_lanes 2 ≡ 1 }
    ensures forward_ends { end_of two_lanes 2 ≡ 2 }
    ensures backward_starts { start_of two_lanes 3 ≡ 2 }
    ensures backward_ends { end_of two_lanes 3 ≡ 1 }
    ensures second { start_of two_lanes 4 ≡ 2 }
{}

fn what_stops_serve()
    ensures edge { edge_of 5 ≡ 2 }
    ensures backward { is_forward 5 ≡ false }
    ensures forward { is_forward 4 ≡ true }
    ensures other { other_way 4 ≡ 5 }
    ensures back { other_way 5 ≡ 4 }
    ensures at_depot { other_way 0 ≡ 0 }
    ensures unused { other_way 1 ≡ 1 }
{}

fn reading_a_board(board: &Board)
    requires { HasNumbers board.now 2 (1 ∷ 2 ∷ 3 ∷ 4 ∷ []) (5 ∷ 6 ∷ []) (0 ∷ 1 ∷ []) 7 }
    ensures link { link board.now 1 0 ≡ 3 }
    ensures other { link board.now 0 1 ≡ 2 }
    ensures demand { demand_of board.now 1 ≡ 6 }
    ensures turn { turned board.now 1 ≡ 1 }
    ensures is { IsBoard board.now }
    ensures other_instance { ¬ (IsBoardOf two_lanes board.now) }
{}

fn a_board_without_services(board: &Board)
    requires { HasNumbers board.now 2 (0 ∷ 0 ∷ 0 ∷ 0 ∷ []) (0 ∷ 0 ∷ []) (0 ∷ 1 ∷ []) 3 }
    ensures { IsBoardOf bare board.now }
{}

fn a_board_of_dear_links(board: &Board)
    requires { HasNumbers board.now 2 (0 ∷ 0 ∷ 0 ∷ 1 ∷ []) (0 ∷ 0 ∷ []) (0 ∷ 1 ∷ []) 3 }
    ensures { ¬ (IsBoardOf bare board.now) }
{}

fn boards_out_of_form(board: &Board)
    requires { HasNumbers board.now 2 (0 ∷ 0 ∷ 0 ∷ []) (0 ∷ 0 ∷ []) (0 ∷ 2 ∷ []) 3 }
    ensures { ¬ (IsBoard board.now) }
{}
