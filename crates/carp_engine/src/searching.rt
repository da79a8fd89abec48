// Searches for a tree that shows the cost of a plan, within a budget of turns.
ghost use Rattle.std.specs.Prelude.{◌≡◌, ◌⊎◌, ◌+◌, ◌<◌, ◌≤◌, IfOk, OnOk, min};
ghost use Rattle.plan_model.specs.Plans.{plan_cost};
ghost use Rattle.task_tours.specs.Shorts.{IsAllowedPlan, IsShortPlan};
ghost use Rattle.grown_trees.specs.Growth.{turns_in};
ghost use Rattle.branch_tree.specs.Counts.{IsLight};
ghost use Rattle.branch_tree.specs.Resumes.{MayResume};
ghost use Rattle.branch_tree.specs.Searches.{IsSearch, state_of};
ghost use Rattle.branch_tree.specs.Steps.{AreClosed};
ghost use Rattle.cert_format.specs.Certs.{certificate_in};
ghost use Rattle.carp_engine.specs.Certifying.{IsSearched, IsSearchedAnew, IsTerse};
ghost use Rattle.carp_engine.specs.Turns.{HasTurned};

use crate::Solved;
use crate::certifying::certify;
use branch_rules::PriceSet;
use branch_tree::{Search, Turn, searches_stay_light};
use carp_base::{Instance, Memory};
use cut_pool::ShorePool;
use grown_trees::GrowingNode;
use leaf_adviser::Adviser;
use plan_model::Plan;
use progress::{Standing, Watch};
use std::alloc::Global;

// The best plan that a search from this plan on finds, and its certificate.
pub(crate) fn search<A: Adviser, W: Watch>(
    alloc: Global,
    inst: &Instance,
    turns: u64,
    plan: Plan,
    advisers: &mut Vec<A>,
    watch: &mut W,
) -> Result<Solved, Memory>
    requires some_turns { 1 ≤ turns }
    requires turns_in_range { turns ≤ 1048576 }
    requires allowed { IsAllowedPlan inst.now plan }
    ensures { IfOk result (λ solved. IsSearchedAnew inst.now turns plan (certificate_in solved.cert) solved.turns) }
{
    searches_stay_light();
    let search = Search::begin(alloc, inst, turns, plan)?;
    go_on(alloc, inst, search, advisers, watch)
}

// The best plan that a search from this plan and a tree on finds, and its certificate. The budget is so many turns more
// than the tree has.
pub(crate) fn search_on<A: Adviser, W: Watch>(
    alloc: Global,
    inst: &Instance,
    turns: u64,
    plan: Plan,
    nodes: &[GrowingNode],
    sets: Vec<PriceSet>,
    shores: ShorePool,
    least: u64,
    advisers: &mut Vec<A>,
    watch: &mut W,
) -> Result<Solved, Memory>
    requires some_turns { 1 ≤ turns }
    requires turns_in_range { turns ≤ 1048576 }
    requires allowed { IsAllowedPlan inst.now plan }
    requires may { MayResume inst.now shores sets.items least nodes.now }
    ensures { IfOk result (λ solved. IsSearched inst.now least (min (turns_in (plan_cost inst.now plan) nodes.now + turns) 1048576) plan (certificate_in solved.cert) solved.turns) }
{
    let search = Search::resume(alloc, inst, turns, plan, nodes, sets, shores, least)?;
    go_on(alloc, inst, search, advisers, watch)
}

// What a search finds that goes on until each leaf is closed or its budget is spent, and its certificate.
fn go_on<A: Adviser, W: Watch>(
    alloc: Global,
    inst: &Instance,
    mut search: Search,
    advisers: &mut Vec<A>,
    watch: &mut W,
) -> Result<Solved, Memory>
    requires { IsSearch inst.now search }
    ensures searched { IfOk result (λ solved. IsSearched inst.now search.least search.turns search.best (certificate_in solved.cert) solved.turns) }
    ensures terse { IsLight (state_of search) → IfOk result (λ solved. IsTerse (certificate_in solved.cert)) }
{
    let turns = search.budget();
    restart(alloc, turns.saturating_sub(search.done()), advisers);
    let taken = take_turns(inst, turns, &mut search, advisers, watch);
    sum_up(alloc, inst, search, taken)
}

// What a search has found that is done, if it did not want for memory, and its certificate. A `?` at which a search is
// owned would drop it there.
fn sum_up(
    alloc: Global,
    inst: &Instance,
    search: Search,
    taken: Result<(), Memory>,
) -> Result<Solved, Memory>
    requires search { IsSearch inst.now search }
    requires ended { OnOk taken (AreClosed (state_of search) ⊎ (search.turns ≤ search.done)) }
    ensures searched { IfOk result (λ solved. IsSearched inst.now search.least search.turns search.best (certificate_in solved.cert) solved.turns) }
    ensures terse { IsLight (state_of search) → IfOk result (λ solved. IsTerse (certificate_in solved.cert)) }
{
    let done = search.done();
    let found = search.finish(alloc, inst)?;
    taken?;
    let solved = certify(alloc, inst, found, done)?;
    Ok(solved)
}

// Tells all advisers that a search of so many turns begins.
fn restart<A: Adviser>(alloc: Global, turns: u64, advisers: &mut Vec<A>) {
    for adviser in advisers.iter_mut() {
        adviser.restart(alloc, turns);
    }
}

// Tells a watch where a search stands.
fn tell<W: Watch>(search: &Search, watch: &mut W) {
    if watch.listens() {
        watch.turns(Standing {
            turn: search.done(),
            turns: search.budget(),
            cost: search.cost(),
            bound: search.shown(),
        });
    }
}

// Takes turns until each leaf is closed or the budget is spent. The watch is told before the first turn, which may take
// most of the time, and after each one.
fn take_turns<A: Adviser, W: Watch>(
    inst: &Instance,
    turns: u64,
    search: &mut Search,
    advisers: &mut Vec<A>,
    watch: &mut W,
) -> Result<(), Memory>
    requires search { IsSearch inst.now search.old }
    requires turns { search.old.turns ≡ turns }
    ensures search { IsSearch inst.now search.new }
    ensures turns { search.new.turns ≡ search.old.turns }
    ensures no_dearer { search.new.cost ≤ search.old.cost }
    ensures short { IsShortPlan inst.now search.old.best → IsShortPlan inst.now search.new.best }
    ensures least { search.new.least ≡ search.old.least }
    ensures light { IsLight (state_of search.old) → IsLight (state_of search.new) }
    ensures ended { OnOk result (AreClosed (state_of search.new) ⊎ (turns ≤ search.new.done)) }
{
    tell(search, watch);
    while search.done() < turns {
        let turn = take_turn(inst, search, advisers)?;
        tell(search, watch);
        if turn == Turn::Done {
            return Ok(());
        }
    }
    Ok(())
}

// Takes a turn, and then the plan that an adviser offers, if that is cheaper.
fn take_turn<A: Adviser>(
    inst: &Instance,
    search: &mut Search,
    advisers: &mut Vec<A>,
) -> Result<Turn, Memory>
    requires search { IsSearch inst.now search.old }
    requires left { search.old.done < search.old.turns }
    ensures search { IsSearch inst.now search.new }
    ensures turns { search.new.turns ≡ search.old.turns }
    ensures no_dearer { search.new.cost ≤ search.old.cost }
    ensures short { IsShortPlan inst.now search.old.best → IsShortPlan inst.now search.new.best }
    ensures least { search.new.least ≡ search.old.least }
    ensures light { IsLight (state_of search.old) → IsLight (state_of search.new) }
    ensures turn { IfOk result (HasTurned (state_of search.old) (state_of search.new)) }
{
    searches_stay_light();
    let turn = search.step_with(inst, advisers)?;
    match turn {
        Turn::Done => Ok(Turn::Done),
        Turn::Closed | Turn::Split => {
            search.take_plan(inst, advisers)?;
            Ok(turn)
        }
    }
}
