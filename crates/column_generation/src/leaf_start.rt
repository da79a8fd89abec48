// How the generation of a leaf begins.
ghost use Rattle.std.specs.Prelude.{◌≡◌, All, IfOk, IfSome, OnOk, length};
ghost use Rattle.branch_rules.specs.Limits.{IsShoreOf};
ghost use Rattle.route_pricing.specs.Tables.{IsRoom};
ghost use Rattle.price_points.specs.Problems.{IsPricingProblem};
ghost use Rattle.column_generation.specs.Points.{IsGeneration};

use crate::cold_start::Start;
use crate::generation::Generation;
use crate::kept::Kept;
use crate::limits::Limits;
use branch_rules::{Branch, PriceSet};
use carp_base::{Instance, Memory};
use cut_pool::ShorePool;
use deadhead_paths::{cost_prices, distances};
use price_points::PricingProblem;
use route_pricing::Table;
use std::alloc::Global;

/// A generation for a leaf that begins with a set, or `None` if no edge is required. A value of `enough` ends it.
///
/// It asks for a table that was made for the instance, and for a set with a price for each required edge and weights on
/// shores of the pool that belong to the instance. The branch is that of the leaf. The only error is want of memory. It
/// takes one fill of the table, and the time of the first program.
pub fn begin(
    alloc: Global,
    problem: &PricingProblem<'_>,
    table: &mut Table,
    pool: &ShorePool,
    branch: &Branch,
    start: &PriceSet,
    enough: i128,
) -> Result<Option<Generation>, Memory>
    requires problem { IsPricingProblem problem.now }
    requires room { IsRoom problem.now.inst.now table.old }
    requires shores { All (λ w. IsShoreOf problem.now.inst.now pool.now w.shore) start.now.weights }
    requires one_each { length start.now.services ≡ problem.now.inst.now.required }
    ensures generation { IfOk result (λ found. IfSome found (IsGeneration problem.now.inst.now)) }
    ensures room { IsRoom problem.now.inst.now table.new }
{
    let inst = problem.inst;
    let none = Branch::new(alloc);
    let costs = cost_prices(alloc, inst)?;
    let dist = distances(alloc, inst, problem.net, &costs)?;
    let first = Start::of(alloc, inst, &dist, pool, &none, start)?;
    let limits = Limits::of_root(enough);
    let begun = Generation::from_start(alloc, problem, table, &dist, first, limits)?;
    let Some(mut generation) = begun else {
        return Ok(None);
    };
    generation.place_box(inst);
    use_decisions_of(alloc, inst, pool, branch, &mut generation, limits)?;
    Ok(Some(generation))
}

// Puts the decisions of a branch into a generation, if there are some.
fn use_decisions_of(
    alloc: Global,
    inst: &Instance,
    pool: &ShorePool,
    branch: &Branch,
    generation: &mut Generation,
    limits: Limits,
) -> Result<(), Memory>
    requires { IsGeneration inst.now generation.old }
    ensures { OnOk result (IsGeneration inst.now generation.new) }
{
    if branch.len() == 0 {
        return Ok(());
    }
    generation.decide(alloc, inst, pool, branch, limits)
}

/// A generation that goes on for a leaf from what was kept of the leaf's parent. A value of `enough` ends it.
///
/// The only error is want of memory. It takes the time of a program of the rows and columns that were kept.
pub fn taken_up(
    alloc: Global,
    problem: &PricingProblem<'_>,
    pool: &ShorePool,
    branch: &Branch,
    kept: &Kept,
    enough: i128,
    generation: Generation,
) -> Result<Option<Generation>, Memory>
    requires { IsPricingProblem problem.now }
    ensures { IfOk result (λ found. IfSome found (IsGeneration problem.now.inst.now)) }
{
    let limits = Limits::of_leaf(problem.inst, enough);
    let mut generation = generation;
    generation.take_up(alloc, problem, pool, branch, kept, limits)?;
    Ok(Some(generation))
}

/// A generation that goes on for a leaf from what was kept for another leaf. A value of `enough` ends it.
///
/// It asks for a table that was made for the instance. The only error is want of memory. It takes one fill of the
/// table, and the time of a program of the rows and columns that were kept.
pub fn adopted(
    alloc: Global,
    problem: &PricingProblem<'_>,
    table: &mut Table,
    pool: &ShorePool,
    branch: &Branch,
    kept: &Kept,
    enough: i128,
    generation: Generation,
) -> Result<Option<Generation>, Memory>
    requires problem { IsPricingProblem problem.now }
    requires room { IsRoom problem.now.inst.now table.old }
    ensures generation { IfOk result (λ found. IfSome found (IsGeneration problem.now.inst.now)) }
    ensures room { IsRoom problem.now.inst.now table.new }
{
    let limits = Limits::of_leaf(problem.inst, enough);
    let mut generation = generation;
    generation.adopt(alloc, problem, table, pool, branch, kept, limits)?;
    Ok(Some(generation))
}
