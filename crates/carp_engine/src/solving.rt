// Finds a plan of an instance, and a bound on all its plans.
ghost use Rattle.std.specs.Prelude.{◌≡◌, ◌⊎◌, ◌+◌, ◌-◌, ◌*◌, ◌/◌, ◌%◌, ◌^◌, ◌≤◌, All, EachIndex, IfOk, OnOk, length, map, slice_index};
ghost use Rattle.deadhead_paths.specs.Prices.{costs_of};
ghost use Rattle.helper_rounds.specs.Asking.{standings};
ghost use Rattle.helper_rounds.specs.Helpers.{IsAtMost};
ghost use Rattle.cert_format.specs.Certs.{certificate_in};
ghost use Rattle.carp_engine.specs.Asked.{AreAskedFromSingles};
ghost use Rattle.carp_engine.specs.Solutions.{IsSound};
ghost use Rattle.carp_engine.specs.Starts.{IsFirstPlan};

use crate::laws::known_laws;
use crate::searching::search;
use carp_base::{Instance, Memory};
use cert_format::Cert;
use deadhead_paths::{Distances, single_tours, tidy};
use helper_rounds::ask_all;
use leaf_adviser::{Adviser, NoAdvice};
use plan_model::{Plan, Proposer};
use progress::Watch;
use std::alloc::Global;
use task_tours::cost_distances;

/// A certificate, and the turns of its tree: its inner nodes, and its leaves that show the cost by themselves.
#[derive(Drop)]
pub struct Solved {
    /// The best plan that was found and a bound, with what shows that no lawful plan costs less.
    pub cert: Cert,
    /// The turns of the tree.
    pub turns: u64,
}

/// The best plan that the helpers find from one tour for each required edge on, and a bound of all plans that is at
/// least each of the floors Shell, Ratio and Join (`dual_master::floors`).
///
/// Each helper is seeded with `seed` plus its place in the list from 0, modulo 2^64. Then the helpers are asked in up
/// to four rounds, each time in the order of the list (`helper_rounds::ask_all`). After an unlawful offer a helper is
/// not asked again. A round without a better plan is the last. The list keeps all its helpers in their order. The only
/// error is want of memory.
///
/// Then a tree of decisions is searched by turns (`branch_tree`), until it shows the cost of the best plan or its turns
/// reach the budget, which is 1 to 1,048,576. The turns are the inner nodes of the tree and its leaves that show the
/// cost by themselves. So the bound is below the cost only if the budget is spent. With m required edges, a budget of
/// `2^(m (m - 1) / 2 + 5)` is never spent. A budget can be so large if m is at most 6. No advisers are asked
/// ([`solve_with`]).
///
/// The text of the certificate has at most 64,000,000 bytes: the plan has no more tours than there are required edges,
/// and the search takes no price set with long groups and no cut with a great number.
///
/// Beside what the helpers take, it takes time in proportion to n (n + m) log n with n vertices and m edges, that of
/// the floors (`dual_master::floors`), and that of the turns.
///
/// ```
/// let scanner: Box<dyn Proposer> = Box::new(alloc, Scanner::new(1))?;
/// let mut helpers: Vec<Box<dyn Proposer>> = Vec::new(alloc);
/// helpers.push(scanner)?;
/// let solved = solve(alloc, &inst, 64, 1, &mut helpers, &mut Silent)?;
/// assert_eq!(rt; (solved.cert.cost, solved.cert.bound), (10, 10));
/// ```
pub fn solve<P: Proposer, W: Watch>(
    alloc: Global,
    inst: &Instance,
    turns: u64,
    seed: u64,
    helpers: &mut Vec<P>,
    watch: &mut W,
) -> Result<Solved, Memory>
    requires some_turns { 1 ≤ turns }
    requires turns_in_range { turns ≤ 1048576 }
    ensures same { map P.id helpers.new.items ≡ map P.id helpers.old.items }
    ensures seeds { OnOk result (EachIndex helpers.new.items (λ k. slice_index (map P.seed helpers.new.items) k ≡ (seed + k) % 2 ^ 64)) }
    ensures asked { OnOk result (All (λ helper. 1 ≤ P.asked helper) helpers.new.items) }
    ensures few_rounds { OnOk result (All (λ helper. P.asked helper ≤ 4) helpers.new.items) }
    ensures fouls { OnOk result (All (λ helper. (P.tally helper).fouls ≤ 1) helpers.new.items) }
    ensures least { IfOk result (λ solved. All (λ helper. IsAtMost solved.cert.cost (P.tally helper).least) helpers.new.items) }
    ensures rounds { IfOk result (λ solved. AreAskedFromSingles inst.now (length helpers.old.items) (standings P.asked P.tally helpers.new.items) solved.cert.cost) }
    ensures sound { IfOk result (λ solved. IsSound inst.now (certificate_in solved.cert) solved.turns) }
    ensures ended { IfOk result (λ solved. (solved.cert.bound ≡ solved.cert.cost) ⊎ (turns ≤ solved.turns)) }
    ensures whole { 2 ^ (inst.now.required * (inst.now.required - 1) / 2 + 5) ≤ turns → IfOk result (λ solved. solved.cert.bound ≡ solved.cert.cost) }
{
    let mut none: Vec<NoAdvice> = Vec::new(alloc);
    solve_with(alloc, inst, turns, seed, helpers, &mut none, watch)
}

/// The same with advisers, who are asked for prices of leaves, for splits and for tours (`branch_tree`). They need not be
/// trusted: what they offer is judged. After each turn the plan of the tours that an adviser offers is taken, if it is
/// lawful and cheaper. The advisers are told that a search begins. No clause speaks of them.
pub fn solve_with<P: Proposer, A: Adviser, W: Watch>(
    alloc: Global,
    inst: &Instance,
    turns: u64,
    seed: u64,
    helpers: &mut Vec<P>,
    advisers: &mut Vec<A>,
    watch: &mut W,
) -> Result<Solved, Memory>
    requires some_turns { 1 ≤ turns }
    requires turns_in_range { turns ≤ 1048576 }
    ensures same { map P.id helpers.new.items ≡ map P.id helpers.old.items }
    ensures seeds { OnOk result (EachIndex helpers.new.items (λ k. slice_index (map P.seed helpers.new.items) k ≡ (seed + k) % 2 ^ 64)) }
    ensures asked { OnOk result (All (λ helper. 1 ≤ P.asked helper) helpers.new.items) }
    ensures few_rounds { OnOk result (All (λ helper. P.asked helper ≤ 4) helpers.new.items) }
    ensures fouls { OnOk result (All (λ helper. (P.tally helper).fouls ≤ 1) helpers.new.items) }
    ensures least { IfOk result (λ solved. All (λ helper. IsAtMost solved.cert.cost (P.tally helper).least) helpers.new.items) }
    ensures rounds { IfOk result (λ solved. AreAskedFromSingles inst.now (length helpers.old.items) (standings P.asked P.tally helpers.new.items) solved.cert.cost) }
    ensures sound { IfOk result (λ solved. IsSound inst.now (certificate_in solved.cert) solved.turns) }
    ensures ended { IfOk result (λ solved. (solved.cert.bound ≡ solved.cert.cost) ⊎ (turns ≤ solved.turns)) }
    ensures whole { 2 ^ (inst.now.required * (inst.now.required - 1) / 2 + 5) ≤ turns → IfOk result (λ solved. solved.cert.bound ≡ solved.cert.cost) }
{
    known_laws();
    inst.validity();
    let dist = cost_distances(alloc, inst)?;
    let mut plan = first_plan(alloc, inst, &dist)?;
    watch.asks();
    ask_all(alloc, inst, &dist, &mut plan, helpers, seed)?;
    search(alloc, inst, turns, plan, advisers, watch)
}

// One tour for each required edge, tidied.
fn first_plan(alloc: Global, inst: &Instance, dist: &Distances) -> Result<Plan, Memory>
    requires problem { dist.now.problem ≡ inst.now }
    requires prices { dist.now.prices ≡ costs_of inst.now }
    ensures { IfOk result (IsFirstPlan inst.now) }
{
    let singles = single_tours(alloc, inst, dist)?;
    tidy(alloc, inst, dist, &singles)
}
