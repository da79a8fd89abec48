// Small data on which a fact that no call decides holds, and on which it does not.
ghost use Rattle.std.specs.Prelude.{◌≡◌, ◌+◌, ◌^◌, pos, negsuc, neg_ℤ, [], ◌∷◌, None, codes};
ghost use Rattle.branch_rules.specs.declared.node.Node.TheVariants.{Pair, Cut, Price, Void, Fixed as FixedLeaf};
ghost use Rattle.cert_lines.specs.declared.fault.CertFault.TheVariants.{Syntax, Limit, Truncated};
ghost use Rattle.cert_lines.specs.declared.next.Next.TheVariants as stands;
ghost use Rattle.cert_lines.specs.Lines.{version, counts, cost, bound, tours, tour, shores, shore, sets, prices, weights, bonds, nodes, node, end, nothing, weight_alone, short_of, line_text};
ghost use Rattle.cert_lines.specs.Order.{next_of};
ghost use Rattle.cert_lines.specs.Ranges.{IsInRange};
ghost use Rattle.cert_lines.specs.Agreement.{Agrees, BecomesWhole};
ghost use Rattle.cert_lines.specs.Texts.{IsShapeless, IsTextOf, IsFaultOf};
ghost use Rattle.cert_lines.specs.Spelling.{text_of, IsSpellable, IsFine};
ghost use Rattle.cert_lines.specs.Examples.{serves, serves_back, drives, drives_back, on_shore, on_group, row_counts, triangle, triangle_text, row, row_text, star, star_text, with_groups, bonded, bonded_text};

#[tactic(auto, unfolding(crate::specs::Numerals::numeral))]
fn lines_of_one_number()
    ensures version { line_text (version 1) ≡ codes "carp-certificate 1" }
    ensures cost { line_text (cost 0) ≡ codes "cost 0" }
    ensures bound { line_text (bound 16) ≡ codes "bound 16" }
    ensures tours { line_text (tours 2) ≡ codes "tours 2" }
    ensures shores { line_text (shores 10) ≡ codes "shores 10" }
    ensures sets { line_text (sets 1) ≡ codes "sets 1" }
    ensures nodes { line_text (nodes 105) ≡ codes "nodes 105" }
    ensures end { line_text end ≡ codes "end" }
{}

#[tactic(auto, unfolding(crate::specs::Numerals::numeral))]
fn lines_of_nodes()
    ensures pair { line_text (node (Pair 1 20)) ≡ codes "pair 1 20" }
    ensures cut { line_text (node (Cut 3 0)) ≡ codes "cut 3 0" }
    ensures price { line_text (node (Price 1)) ≡ codes "price 1" }
    ensures void { line_text (node Void) ≡ codes "void" }
    ensures fixed { line_text (node FixedLeaf) ≡ codes "fixed" }
{}

#[tactic(auto, unfolding(crate::specs::Numerals::numeral))]
fn lines_of_items()
    ensures counts { line_text (counts row_counts) ≡ codes "instance 3 2 2 2 4" }
    ensures tour { line_text (tour 4 (serves 1 ∷ serves_back 2 ∷ drives 30 ∷ drives_back 4 ∷ [])) ≡ codes "tour 4 +1 -2 >30 <4" }
    ensures empty_tour { line_text (tour 0 []) ≡ codes "tour 0" }
    ensures shore { line_text (shore 2 (2 ∷ 3 ∷ [])) ≡ codes "shore 2 2 3" }
    ensures prices { line_text (prices 2 3 (pos 5 ∷ negsuc 6 ∷ pos 0 ∷ [])) ≡ codes "prices 2 3 5 -7 0" }
    ensures weights { line_text (weights 2 (on_shore 1 (negsuc 99) ∷ on_shore 2 (pos 1) ∷ [])) ≡ codes "weights 2 1 -100 2 1" }
    ensures bonds { line_text (bonds 1 (on_group (4 ∷ 9 ∷ []) (negsuc 6) ∷ []) nothing) ≡ codes "bonds 1 -7 2 4 9" }
    ensures no_bonds { line_text (bonds 0 [] nothing) ≡ codes "bonds 0" }
    ensures weight_alone { line_text (bonds 1 [] (weight_alone (pos 5))) ≡ codes "bonds 1 5" }
    ensures short_group { line_text (bonds 1 [] (short_of 1 (pos 5) (8 ∷ []))) ≡ codes "bonds 1 5 3 8" }
{}

#[tactic(auto, unfolding(crate::specs::Numerals::numeral))]
fn words_that_are_no_line()
    ensures two_blanks { IsShapeless (version 1 ∷ []) (codes "cost  16") }
    ensures blank_at_the_end { IsShapeless (version 1 ∷ []) (codes "cost 16 ") }
    ensures blank_before { IsShapeless (version 1 ∷ []) (codes " cost 16") }
    ensures carriage_return { IsShapeless (version 1 ∷ []) (codes "cost 16\r") }
    ensures leading_zero { IsShapeless (version 1 ∷ []) (codes "cost 016") }
    ensures nothing { IsShapeless (version 1 ∷ []) [] }
    ensures no_number { IsShapeless (version 1 ∷ []) (codes "cost") }
    ensures another_line { IsShapeless (version 1 ∷ []) (codes "bound 16") }
    ensures third_version { IsShapeless [] (codes "carp-certificate 3") }
    ensures minus_zero { IsShapeless (sets 1 ∷ []) (codes "prices 1 1 -0") }
    ensures counts_in_version_one { IsShapeless (version 1 ∷ []) (codes "instance 3 2 2 2 4") }
{}

fn what_stands_next()
    ensures first { next_of [] ≡ stands.Version }
    ensures of_version_one { next_of (version 1 ∷ []) ≡ stands.Cost }
    ensures of_version_two { next_of (version 2 ∷ []) ≡ stands.Counts }
    ensures no_tours { next_of (tours 0 ∷ []) ≡ stands.Shores }
    ensures tours_to_come { next_of (tour 0 [] ∷ tours 3 ∷ []) ≡ stands.Tour 2 }
    ensures last_shore { next_of (shore 0 [] ∷ shores 1 ∷ []) ≡ stands.Sets }
    ensures weights_of_prices { next_of (prices 1 0 [] ∷ sets 2 ∷ []) ≡ stands.Weights 2 }
    ensures prices_of_the_next_set { next_of (weights 0 [] ∷ prices 1 0 [] ∷ sets 2 ∷ version 2 ∷ []) ≡ stands.Prices 1 }
    ensures bonds_of_weights { next_of (weights 0 [] ∷ prices 1 0 [] ∷ sets 2 ∷ version 4 ∷ []) ≡ stands.Bonds 2 }
    ensures prices_after_bonds { next_of (bonds 0 [] nothing ∷ weights 0 [] ∷ prices 1 0 [] ∷ sets 2 ∷ version 4 ∷ []) ≡ stands.Prices 1 }
    ensures of_version_four { next_of (version 4 ∷ []) ≡ stands.Counts }
    ensures two_subtrees { next_of (node (Pair 1 2) ∷ nodes 3 ∷ []) ≡ stands.Node 2 2 }
    ensures last_node { next_of (node Void ∷ nodes 1 ∷ []) ≡ stands.End }
    ensures none { next_of (end ∷ []) ≡ stands.Nothing }
{}

fn ranges_of_counts_of_lines()
    ensures cost { IsInRange [] (cost 999999999999999999) }
    ensures cost_past { ¬ (IsInRange [] (cost 1000000000000000000)) }
    ensures bound { IsInRange [] (bound 999999999999999999) }
    ensures bound_past { ¬ (IsInRange [] (bound 1000000000000000000)) }
    ensures tours { IsInRange [] (tours 100000) }
    ensures tours_past { ¬ (IsInRange [] (tours 100001)) }
    ensures shores { IsInRange [] (shores 2000) }
    ensures shores_past { ¬ (IsInRange [] (shores 2001)) }
    ensures sets { IsInRange [] (sets 256) }
    ensures sets_past { ¬ (IsInRange [] (sets 257)) }
    ensures nodes { IsInRange [] (nodes 2097153) }
    ensures nodes_past { ¬ (IsInRange [] (nodes 2097154)) }
    ensures no_nodes { ¬ (IsInRange [] (nodes 0)) }
{}

fn ranges_of_numbers_of_an_instance()
    ensures greatest { IsInRange [] (counts (record { vertices = 1000; edges = 4000; required = 600; capacity = 30000; demand = 18000000 })) }
    ensures least { IsInRange [] (counts (record { vertices = 1; edges = 0; required = 0; capacity = 1; demand = 0 })) }
    ensures no_vertices { ¬ (IsInRange [] (counts (record { vertices = 0; edges = 0; required = 0; capacity = 1; demand = 0 }))) }
    ensures vertices_past { ¬ (IsInRange [] (counts (record { vertices = 1001; edges = 0; required = 0; capacity = 1; demand = 0 }))) }
    ensures edges_past { ¬ (IsInRange [] (counts (record { vertices = 1; edges = 4001; required = 0; capacity = 1; demand = 0 }))) }
    ensures required_past { ¬ (IsInRange [] (counts (record { vertices = 1; edges = 0; required = 601; capacity = 1; demand = 0 }))) }
    ensures no_capacity { ¬ (IsInRange [] (counts (record { vertices = 1; edges = 0; required = 0; capacity = 0; demand = 0 }))) }
    ensures capacity_past { ¬ (IsInRange [] (counts (record { vertices = 1; edges = 0; required = 0; capacity = 30001; demand = 0 }))) }
    ensures demand_past { ¬ (IsInRange [] (counts (record { vertices = 1; edges = 0; required = 0; capacity = 1; demand = 18000001 }))) }
{}

fn ranges_of_tours()
    ensures last_step { IsInRange (tour 1999999 [] ∷ []) (tour 1 (serves 4000 ∷ [])) }
    ensures steps_past { ¬ (IsInRange (tour 1999999 [] ∷ []) (tour 2 [])) }
    ensures edge_zero { ¬ (IsInRange [] (tour 1 (serves 0 ∷ []))) }
    ensures edge_past { ¬ (IsInRange [] (tour 1 (serves 4001 ∷ []))) }
{}

fn ranges_of_shores()
    ensures shore { IsInRange [] (shore 999 (1 ∷ 1000 ∷ [])) }
    ensures empty { ¬ (IsInRange [] (shore 0 [])) }
    ensures size_past { ¬ (IsInRange [] (shore 1000 [])) }
    ensures vertex_zero { ¬ (IsInRange [] (shore 1 (0 ∷ []))) }
    ensures vertex_past { ¬ (IsInRange [] (shore 1 (1001 ∷ []))) }
{}

fn ranges_of_price_sets()
    ensures prices { IsInRange [] (prices 1000000 600 (pos 1000000000000000 ∷ neg_ℤ (pos 1000000000000000) ∷ [])) }
    ensures unit_zero { ¬ (IsInRange [] (prices 0 0 [])) }
    ensures unit_past { ¬ (IsInRange [] (prices 1000001 0 [])) }
    ensures prices_past { ¬ (IsInRange [] (prices 1 601 [])) }
    ensures price_past { ¬ (IsInRange [] (prices 1 1 (pos 1000000000000001 ∷ []))) }
    ensures price_below { ¬ (IsInRange [] (prices 1 1 (neg_ℤ (pos 1000000000000001) ∷ []))) }
    ensures weight { IsInRange (shore 0 [] ∷ []) (weights 1 (on_shore 1 (pos 1) ∷ [])) }
    ensures weights_past { ¬ (IsInRange (shore 0 [] ∷ []) (weights 2 [])) }
    ensures shore_zero { ¬ (IsInRange (shore 0 [] ∷ []) (weights 1 (on_shore 0 (pos 1) ∷ []))) }
    ensures shore_past { ¬ (IsInRange (shore 0 [] ∷ []) (weights 1 (on_shore 2 (pos 1) ∷ []))) }
{}

fn ranges_of_groups()
    ensures pair { IsInRange [] (bonds 2000 (on_group (1 ∷ 600 ∷ []) (neg_ℤ (pos 1000000000000000)) ∷ []) nothing) }
    ensures groups_past { ¬ (IsInRange [] (bonds 2001 [] nothing)) }
    ensures one_edge { ¬ (IsInRange [] (bonds 1 (on_group (1 ∷ []) (pos 1) ∷ []) nothing)) }
    ensures edge_zero { ¬ (IsInRange [] (bonds 1 (on_group (0 ∷ 1 ∷ []) (pos 1) ∷ []) nothing)) }
    ensures edge_past { ¬ (IsInRange [] (bonds 1 (on_group (1 ∷ 601 ∷ []) (pos 1) ∷ []) nothing)) }
    ensures weight_past { ¬ (IsInRange [] (bonds 1 [] (weight_alone (pos 1000000000000001)))) }
    ensures stated { IsInRange [] (bonds 1 [] (short_of 598 (pos 1) (1 ∷ []))) }
    ensures size_past { ¬ (IsInRange [] (bonds 1 [] (short_of 599 (pos 1) (1 ∷ [])))) }
{}

fn ranges_of_nodes()
    ensures pair { IsInRange [] (node (Pair 1 600)) }
    ensures pair_zero { ¬ (IsInRange [] (node (Pair 0 1))) }
    ensures pair_past { ¬ (IsInRange [] (node (Pair 1 601))) }
    ensures cut { IsInRange (shore 0 [] ∷ []) (node (Cut 1 1000000)) }
    ensures cut_past { ¬ (IsInRange (shore 0 [] ∷ []) (node (Cut 1 1000001))) }
    ensures no_shore { ¬ (IsInRange [] (node (Cut 1 0))) }
    ensures shore_zero { ¬ (IsInRange (shore 0 [] ∷ []) (node (Cut 0 1))) }
    ensures set { IsInRange (weights 0 [] ∷ []) (node (Price 1)) }
    ensures no_set { ¬ (IsInRange [] (node (Price 1))) }
    ensures set_zero { ¬ (IsInRange (weights 0 [] ∷ []) (node (Price 0))) }
    ensures set_past { ¬ (IsInRange (weights 0 [] ∷ []) (node (Price 2))) }
{}

fn what_agrees()
    ensures tour { Agrees [] (tour 1 (serves 1 ∷ [])) }
    ensures other_number { ¬ (Agrees [] (tour 2 (serves 1 ∷ []))) }
    ensures shore { Agrees (shore 1 (2 ∷ []) ∷ []) (shore 2 (2 ∷ 3 ∷ [])) }
    ensures equal_shore { ¬ (Agrees (shore 1 (2 ∷ []) ∷ []) (shore 1 (2 ∷ []))) }
    ensures falling_shore { ¬ (Agrees [] (shore 2 (3 ∷ 2 ∷ []))) }
    ensures weights { Agrees [] (weights 2 (on_shore 1 (pos 1) ∷ on_shore 2 (negsuc 0) ∷ [])) }
    ensures same_shore { ¬ (Agrees [] (weights 2 (on_shore 1 (pos 1) ∷ on_shore 1 (pos 2) ∷ []))) }
    ensures no_weight { ¬ (Agrees [] (weights 1 (on_shore 1 (pos 0) ∷ []))) }
{}

fn groups_that_agree()
    ensures pairs { Agrees [] (bonds 2 (on_group (1 ∷ 2 ∷ []) (pos 1) ∷ on_group (1 ∷ 2 ∷ []) (negsuc 1) ∷ []) nothing) }
    ensures other_number { ¬ (Agrees [] (bonds 0 (on_group (1 ∷ 2 ∷ []) (pos 1) ∷ []) nothing)) }
    ensures incomplete { ¬ (Agrees [] (bonds 0 [] (weight_alone (pos 1)))) }
    ensures falling { ¬ (Agrees [] (bonds 1 (on_group (2 ∷ 1 ∷ []) (pos 1) ∷ []) nothing)) }
    ensures no_weight { ¬ (Agrees [] (bonds 1 (on_group (1 ∷ 2 ∷ []) (pos 0) ∷ []) nothing)) }
    ensures negative_on_three { ¬ (Agrees [] (bonds 1 (on_group (1 ∷ 2 ∷ 3 ∷ []) (negsuc 0) ∷ []) nothing)) }
    ensures none_in_the_last { ¬ (Agrees (weights 0 [] ∷ prices 1 0 [] ∷ sets 1 ∷ version 4 ∷ []) (bonds 0 [] nothing)) }
    ensures none_in_the_first { Agrees (weights 0 [] ∷ prices 1 0 [] ∷ sets 2 ∷ version 4 ∷ []) (bonds 0 [] nothing) }
    ensures no_set { ¬ (Agrees (version 4 ∷ []) (sets 0)) }
    ensures no_set_in_version_two { Agrees (version 2 ∷ []) (sets 0) }
{}

fn trees_that_become_whole()
    ensures last { BecomesWhole 1 1 Void }
    ensures too_early { ¬ (BecomesWhole 2 1 Void) }
    ensures not_yet { ¬ (BecomesWhole 1 1 (Pair 1 2)) }
    ensures two_left { ¬ (BecomesWhole 1 2 Void) }
    ensures inner { BecomesWhole 3 1 (Cut 1 0) }
    ensures pair_turned { ¬ (Agrees (nodes 3 ∷ []) (node (Pair 2 1))) }
{}

#[tactic(auto, unfolding(crate::specs::Numerals::numeral))]
fn a_whole_certificate()
    ensures spelled { text_of triangle ≡ triangle_text }
    ensures fine { IsFine triangle }
    ensures spellable { IsSpellable triangle }
    ensures text { IsTextOf triangle_text triangle }
{}

fn certificates_that_cannot_be_spelled()
    ensures cost_past { ¬ (IsFine (record triangle { cost = 10 ^ 18 })) }
    ensures falling_shore { ¬ (IsFine (record triangle { shores = (3 ∷ 2 ∷ []) ∷ [] })) }
    ensures group_without_counts { ¬ (IsFine (record bonded { counts = None })) }
    ensures group_without_counts_unspellable { ¬ (IsSpellable (record bonded { counts = None })) }
    ensures no_group_weight { ¬ (IsFine (with_groups (on_group (1 ∷ 2 ∷ []) (pos 0) ∷ []))) }
    ensures falling_group { ¬ (IsFine (with_groups (on_group (2 ∷ 1 ∷ []) (pos 1) ∷ []))) }
    ensures negative_group_of_three { ¬ (IsFine (with_groups (on_group (1 ∷ 2 ∷ 3 ∷ []) (negsuc 0) ∷ []))) }
    ensures past_unspellable { ¬ (IsSpellable (record triangle { bound = 10 ^ 18 })) }
    ensures falling_unspellable { ¬ (IsSpellable (record triangle { shores = (3 ∷ 2 ∷ []) ∷ [] })) }
    ensures two_trees_unspellable { ¬ (IsSpellable (record triangle { nodes = Price 1 ∷ Price 1 ∷ [] })) }
{}

#[tactic(auto, unfolding(crate::specs::Numerals::numeral))]
fn larger_certificates()
    ensures row { text_of row ≡ row_text }
    ensures row_spellable { IsSpellable row }
    ensures bonded { text_of bonded ≡ bonded_text }
    ensures bonded_spellable { IsSpellable bonded }
    ensures star { text_of star ≡ star_text }
{}

#[tactic(auto, unfolding(crate::specs::Numerals::numeral))]
fn faults_of_bytes()
    ensures nothing { IsFaultOf [] (Truncated 1) }
    ensures no_line_feed { IsFaultOf (codes "carp-certificate 1") (Truncated 1) }
    ensures one_line { IsFaultOf (codes "carp-certificate 1\ncost") (Truncated 2) }
    ensures bad_version { IsFaultOf (codes "carp-certificate 3\n") (Syntax 1) }
    ensures two_blanks { IsFaultOf (codes "carp-certificate 1\ncost  1\n") (Syntax 2) }
    ensures past_a_limit { IsFaultOf (codes "carp-certificate 2\ninstance 0 2 2 2 4\n") (Limit 2) }
{}
