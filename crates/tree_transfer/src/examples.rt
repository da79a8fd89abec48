// Small data on which what the contracts speak of holds, and on which it does not.
ghost use Rattle.std.specs.Prelude.{[], ◌∷◌};
ghost use Rattle.decision_chains.specs.PlanLaws.{ChainsCostLess, IsServedWithin};
ghost use Rattle.cut_pool.specs.Shores.{is_in};
ghost use Rattle.deadhead_paths.specs.Examples.{town};
ghost use Rattle.instance_edits.specs.Examples.{three_streets, two_streets};
ghost use Rattle.tree_transfer.specs.Examples.{busy_streets, exchanged_streets, exchanged_tasks, free_town, loaded_streets, moved_streets, new_street, roomy_streets, street, two_tasks, wide_streets};
ghost use Rattle.tree_transfer.specs.Laws.{IsNoLessNeeded};
ghost use Rattle.tree_transfer.specs.Raised.{IsNoCheaper, IsRaised};

use crate::edits_raise_instances;

fn an_edge_that_is_no_cheaper()
    ensures dearer { IsNoCheaper (street 1 2 5 1 6) (street 1 2 6 3 14) }
    ensures itself { IsNoCheaper (street 1 2 5 1 6) (street 1 2 5 1 6) }
    ensures crossing { ¬ (IsNoCheaper (street 1 2 5 1 6) (street 1 2 4 1 6)) }
    ensures demand { ¬ (IsNoCheaper (street 1 2 5 1 6) (street 1 2 5 0 6)) }
    ensures service { ¬ (IsNoCheaper (street 1 2 5 1 6) (street 1 2 5 1 5)) }
    ensures turned { ¬ (IsNoCheaper (street 1 2 5 1 6) (street 2 1 5 1 6)) }
    ensures other_end { ¬ (IsNoCheaper (street 1 2 5 1 6) (street 1 3 5 1 6)) }
{}

fn an_instance_that_is_raised()
    ensures itself { IsRaised three_streets three_streets }
    ensures renumbered { IsRaised three_streets exchanged_streets }
    ensures vertices { ¬ (IsRaised three_streets wide_streets) }
    ensures depot { ¬ (IsRaised three_streets moved_streets) }
    ensures capacity { ¬ (IsRaised three_streets roomy_streets) }
    ensures required { ¬ (IsRaised three_streets busy_streets) }
    ensures added { ¬ (IsRaised two_streets new_street) }
    ensures exchanged { ¬ (IsRaised two_tasks exchanged_tasks) }
    ensures lowered { ¬ (IsRaised two_streets three_streets) }
{}

fn edits_that_raise()
    ensures { IsRaised three_streets two_streets }
{
    edits_raise_instances();
}

fn what_is_needed()
    ensures edited { IsNoLessNeeded three_streets two_streets (is_in (2 ∷ [])) }
    ensures more { IsNoLessNeeded three_streets loaded_streets (is_in (2 ∷ [])) }
    ensures fewer { ¬ (IsNoLessNeeded loaded_streets three_streets (is_in (2 ∷ []))) }
    ensures crossings { ¬ (IsNoLessNeeded three_streets two_tasks (is_in (2 ∷ []))) }
{}

fn what_serves_a_chain()
    ensures cost { IsServedWithin town [] 1 12 }
    ensures none { ¬ (IsServedWithin town [] 1 0) }
    ensures itself { ChainsCostLess town town [] [] }
    ensures free { ¬ (ChainsCostLess town free_town [] []) }
{}
