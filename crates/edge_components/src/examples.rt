// Small data on which a fact that no call decides holds, and on which it does not.
ghost use Rattle.std.specs.Prelude.{◌≡◌, [], ◌∷◌, true, false};
ghost use Rattle.cut_pool.specs.Shores.{is_in};
ghost use Rattle.edge_components.specs.Parts.{parts_of, parts_over};
ghost use Rattle.edge_components.specs.Components.{least_vertex};
ghost use Rattle.edge_components.specs.Labels.{is_free_label, marked_shores};
ghost use Rattle.edge_components.specs.Listing.{vertices_where};
ghost use Rattle.edge_components.specs.Examples.{row};

fn parts_of_edges()
    ensures second { parts_of (7 ∷ 4 ∷ []) 2 ≡ 4 }
    ensures of_none { parts_of (7 ∷ 4 ∷ []) 0 ≡ 0 }
    ensures both_cross { parts_over row (7 ∷ 4 ∷ []) (is_in (2 ∷ [])) ≡ 11 }
    ensures one_lies_within { parts_over row (7 ∷ 4 ∷ []) (is_in (2 ∷ 3 ∷ [])) ≡ 7 }
{}

fn lists_of_vertices()
    ensures rising { vertices_where (is_in (3 ∷ 1 ∷ [])) 4 ≡ 1 ∷ 3 ∷ [] }
    ensures past_the_last { vertices_where (is_in (5 ∷ [])) 4 ≡ [] }
    ensures least { least_vertex (2 ∷ 3 ∷ []) ≡ 2 }
{}

fn labels_of_components()
    ensures free { is_free_label row (0 ∷ 1 ∷ 2 ∷ 2 ∷ 4 ∷ []) 2 ≡ true }
    ensures not_its_own { is_free_label row (0 ∷ 1 ∷ 2 ∷ 2 ∷ 4 ∷ []) 3 ≡ false }
    ensures with_the_depot { is_free_label row (0 ∷ 1 ∷ 1 ∷ 3 ∷ 4 ∷ []) 1 ≡ false }
    ensures two_of_three { marked_shores (0 ∷ 1 ∷ 2 ∷ 2 ∷ 4 ∷ []) (false ∷ false ∷ true ∷ false ∷ true ∷ []) 4 4 ≡ (2 ∷ 3 ∷ []) ∷ (4 ∷ []) ∷ [] }
{}
