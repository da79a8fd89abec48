// The program over the shores found so far, and the rounds of search for more.
ghost use Rattle.std.specs.Prelude.{◌≡◌, All, IfOk, OnOk};
ghost use Rattle.cut_pool.specs.Shores.{Belongs};
ghost use Rattle.price_points.specs.Weights.{IsWeighted};

use branch_rules::Branch;
use capacity_cuts::shells;
use carp_base::{Instance, Memory};
use cut_pool::{Shore, ShorePool, Weighted, need};
use deadhead_paths::{cost_prices, distances};
use road_network::Network;
use shore_program::Program;
use shore_search::{Effort, ShoreSearch};
use std::alloc::Global;

// How many rounds there are at most.
const ROUNDS: u32 = 400;

// How many steps of the simplex method a round makes at most.
const PIVOTS: u32 = 20_000;

// How many shores are added in a round at most.
const ADDED: usize = 40;

// So many rounds in a row in which the value hardly rose end the search.
const STALLS: u32 = 25;

// A round raises the value by at least this part of it, or hardly.
const HARDLY: u64 = 100_000;

// So much work, by the counts of the program and of the search, ends it.
const WORK: u64 = 4_000_000_000;

// A search of full effort that adds more shores than this goes on with quick ones.
const MANY: usize = 5;

// How the rounds have gone.
#[derive(Drop)]
struct Progress {
    effort: Effort,
    value: u64,
    stalls: u32,
}

impl Progress {
    // Takes the end of a round, with the shores that were added, the value before them and the work so far, and answers whether
    // another one is worth its time.
    fn goes_on(&mut self, added: usize, value: u64, work: u64) -> bool {
        let gain = value.saturating_sub(self.value);
        let hardly = gain < self.value / HARDLY;
        self.stalls = if hardly {
            self.stalls.saturating_add(1)
        } else {
            0
        };
        self.value = value;
        let ended = added == 0 && self.effort == Effort::Full;
        self.effort = next_effort(self.effort, added);
        !ended && self.stalls <= STALLS && work <= WORK
    }
}

// Where a quick search adds nothing, a full one follows, and where that adds many, quick ones again.
fn next_effort(effort: Effort, added: usize) -> Effort {
    match effort {
        Effort::Quick if added == 0 => Effort::Full,
        Effort::Full if added > MANY => Effort::Quick,
        _ => effort,
    }
}

// The shores with weights of the program after up to so many rounds.
pub(crate) fn weighted_shores(
    alloc: Global,
    inst: &Instance,
    net: &Network,
    pool: &ShorePool,
    branch: &Branch,
    rounds: u32,
) -> Result<Vec<Weighted>, Memory>
    requires net { net.now ≡ inst.now }
    requires belong { All (Belongs inst.now) pool.now }
    ensures { IfOk result (λ shores. All (IsWeighted inst.now) shores.items) }
{
    let mut program = Program::new(alloc, inst)?;
    add_held(alloc, inst, pool, branch, &mut program)?;
    add_levels(alloc, inst, net, &mut program)?;
    improve(alloc, inst, net, &mut program, rounds)?;
    program.weights(alloc)
}

// Adds the shores of the pool, over which their lower numbers are demanded.
fn add_held(
    alloc: Global,
    inst: &Instance,
    pool: &ShorePool,
    branch: &Branch,
    program: &mut Program,
) -> Result<(), Memory>
    requires problem { program.old.problem ≡ inst.now }
    requires belong { All (Belongs inst.now) pool.now }
    ensures { OnOk result (program.new.problem ≡ inst.now) }
{
    for number in 1..pool.len() + 1 {
        let least = branch.lower(inst, pool, number);
        program.add(alloc, pool.shore(number).copy(alloc)?, least)?;
    }
    Ok(())
}

// Adds the level sets of the depot's distances by cost.
fn add_levels(
    alloc: Global,
    inst: &Instance,
    net: &Network,
    program: &mut Program,
) -> Result<(), Memory>
    requires net { net.now ≡ inst.now }
    requires problem { program.old.problem ≡ inst.now }
    ensures { OnOk result (program.new.problem ≡ inst.now) }
{
    let prices = cost_prices(alloc, inst)?;
    let dist = distances(alloc, inst, net, &prices)?;
    let levels = shells(alloc, inst, &dist)?;
    for shell in levels {
        let least = need(inst, &shell.shore);
        program.add(alloc, shell.shore, least)?;
    }
    Ok(())
}

// Solves the program and adds shores that it leaves short, round after round.
fn improve(
    alloc: Global,
    inst: &Instance,
    net: &Network,
    program: &mut Program,
    rounds: u32,
) -> Result<(), Memory>
    requires net { net.now ≡ inst.now }
    requires problem { program.old.problem ≡ inst.now }
    ensures { OnOk result (program.new.problem ≡ inst.now) }
{
    let mut search = ShoreSearch::new();
    let mut progress = Progress {
        effort: Effort::Quick,
        value: 0,
        stalls: 0,
    };
    for _ in 0..rounds.min(ROUNDS) {
        program.solve(alloc, PIVOTS)?;
        let value = program.value();
        let added = add_short(alloc, inst, net, program, &mut search, progress.effort)?;
        let work = program.work().saturating_add(search.work());
        if !progress.goes_on(added, value, work) {
            break;
        }
    }
    Ok(())
}

// Adds shores that the corner of the program leaves short, and answers how many.
fn add_short(
    alloc: Global,
    inst: &Instance,
    net: &Network,
    program: &mut Program,
    search: &mut ShoreSearch,
    effort: Effort,
) -> Result<usize, Memory>
    requires net { net.now ≡ inst.now }
    requires problem { program.old.problem ≡ inst.now }
    ensures { OnOk result (program.new.problem ≡ inst.now) }
{
    program.drop_idle();
    let x = program.deadheads(alloc)?;
    let found = search.find(alloc, inst, net, &x, effort, ADDED)?;
    add_all(alloc, inst, program, found)
}

// Adds shores with their needs, and answers how many were new.
fn add_all(
    alloc: Global,
    inst: &Instance,
    program: &mut Program,
    shores: Vec<Shore>,
) -> Result<usize, Memory>
    requires problem { program.old.problem ≡ inst.now }
    requires belong { All (Belongs inst.now) shores.items }
    ensures { OnOk result (program.new.problem ≡ inst.now) }
{
    let mut added: usize = 0;
    for shore in shores {
        let least = need(inst, &shore);
        let is_new = program.add(alloc, shore, least)?;
        added = added.saturating_add(usize::from(is_new));
    }
    Ok(added)
}
