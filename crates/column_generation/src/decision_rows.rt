// Decisions in a program: their rows, and the tours that they forbid.
ghost use Rattle.std.specs.Prelude.{◌≡◌, ◌<◌, All, IfOk, length};
ghost use Rattle.route_pricing.specs.Pricing.{IsServicePrice};
ghost use Rattle.price_points.specs.Points.{IsPoint};

use crate::master::Master;
use crate::separation::use_place;
use branch_rules::{Branch, Decision};
use carp_base::{Allowed, Instance, Memory, Task};
use cut_pool::{Shore, ShorePool};
use linear_program::{ColumnId, Program, Variable};
use price_points::{Constraint, Demand, Members, Point, clamped, number_at, sum_within};
use std::alloc::Global;

/// Puts the rows of the decisions of a branch in use.
pub(crate) fn use_decisions(
    alloc: Global,
    inst: &Instance,
    pool: &ShorePool,
    branch: &Branch,
    master: &mut Master,
    program: &mut Program,
) -> Result<(), Memory> {
    for decision in branch.decisions() {
        use_decision(alloc, inst, pool, decision, master, program)?;
    }
    Ok(())
}

/// Puts the row of a decision in use, if it has one.
pub(crate) fn use_decision(
    alloc: Global,
    inst: &Instance,
    pool: &ShorePool,
    decision: &Decision,
    master: &mut Master,
    program: &mut Program,
) -> Result<(), Memory> {
    let place = match *decision {
        Decision::Yes { a, b } => place_of_pair(alloc, inst, a, b, master)?,
        Decision::No { .. } => None,
        Decision::Low { shore, k } => match shore_in(pool, shore) {
            Some(shore) => {
                let demand = Demand::FewDeadheads(shore.copy(alloc)?);
                master.place_of_decision(alloc, inst, *decision, demand, k)?
            }
            None => None,
        },
        Decision::High { shore, k } => match shore_in(pool, shore) {
            Some(shore) => {
                let demand = Demand::Deadheads(shore.copy(alloc)?);
                master.place_of_decision(alloc, inst, *decision, demand, k.saturating_add(2))?
            }
            None => None,
        },
    };
    if let Some(place) = place {
        use_place(alloc, inst, master, program, place, 0)?;
    }
    Ok(())
}

// The place of the constraint on a pair that is to be served together.
fn place_of_pair(
    alloc: Global,
    inst: &Instance,
    a: u32,
    b: u32,
    master: &mut Master,
) -> Result<Option<usize>, Memory> {
    let edges = [a.min(b), a.max(b)];
    let members = Members::new(alloc, inst.required(), &edges)?;
    let decision = Decision::Yes { a, b };
    master.place_of_decision(alloc, inst, decision, Demand::Joined(members), 1)
}

// The shore of a number in a pool, if there is one.
fn shore_in(pool: &ShorePool, number: u32) -> Option<&Shore> {
    if 1 <= number && number <= pool.len() {
        Some(pool.shore(number))
    } else {
        None
    }
}

/// Forbids the columns of a program in whose tours excluded pairs follow each other.
pub(crate) fn forbid_unlawful(
    alloc: Global,
    inst: &Instance,
    master: &Master,
    allowed: &Allowed,
    program: &mut Program,
) -> Result<(), Memory>
    requires { allowed.now.size ≡ inst.now.required }
{
    let columns: Vec<ColumnId> = Vec::from_slice(alloc, program.columns())?;
    for column in &columns {
        if !is_lawful(inst, master, allowed, *column) {
            program.forbid(*column);
        }
    }
    Ok(())
}

/// Whether no excluded pairs follow each other in the tour of a column, if it has one.
pub(crate) fn is_lawful(
    inst: &Instance,
    master: &Master,
    allowed: &Allowed,
    column: ColumnId,
) -> bool
    requires { allowed.now.size ≡ inst.now.required }
{
    let deadheads = inst.edge_count() as usize;
    if column.number() < deadheads {
        return true;
    }
    match master.tours.get(column.number() - deadheads) {
        Some(tour) => may_follow(inst, allowed, &tour.tasks),
        None => false,
    }
}

// Whether no excluded pairs follow each other.
fn may_follow(inst: &Instance, allowed: &Allowed, tasks: &[Task]) -> bool
    requires { allowed.now.size ≡ inst.now.required }
{
    for place in 1..tasks.len() {
        if !may_be_near(inst, allowed, tasks[place - 1].edge, tasks[place].edge) {
            return false;
        }
    }
    true
}

/// Whether two edges are required, and not excluded. It takes constant time.
pub fn may_be_near(inst: &Instance, allowed: &Allowed, e: u32, f: u32) -> bool
    requires { allowed.now.size ≡ inst.now.required }
{
    1 <= e && e <= inst.required() && 1 <= f && f <= inst.required() && allowed.may(e, f)
}

/// A point without the weights of the constraints that do not hold for each plan that meets the decisions. It has a
/// price for each required edge and a weight for each constraint, whatever the first point has.
pub(crate) fn held_under(
    alloc: Global,
    inst: &Instance,
    decisions: &[Decision],
    constraints: &[Constraint],
    point: &Point,
) -> Result<Point, Memory>
    ensures { IfOk result (IsPoint inst.now) }
{
    let prices = first_numbers(alloc, inst.required() as usize, &point.prices)?;
    let mut weights = first_numbers(alloc, constraints.len(), &point.weights)?;
    clear_others(decisions, constraints, &mut weights);
    Ok(Point::new(inst, constraints, prices, weights))
}

// The first so many numbers, each within the limits. Those past the end are 0.
fn first_numbers(alloc: Global, count: usize, numbers: &[i64]) -> Result<Vec<i64>, Memory>
    ensures one_each { IfOk result (λ first. length first.items ≡ count) }
    ensures within { IfOk result (λ first. All IsServicePrice first.items) }
{
    let mut first = Vec::with_capacity(alloc, count)?;
    for place in 0..count {
        first.push(clamped_at(numbers, place))?;
    }
    Ok(first)
}

// The number at a place within the limits, or 0 if there is none.
fn clamped_at(numbers: &[i64], place: usize) -> i64
    ensures { IsServicePrice result }
{
    clamped(i128::from(number_at(numbers, place)))
}

fn clear_others(decisions: &[Decision], constraints: &[Constraint], weights: &mut [i64])
    requires { All IsServicePrice weights.old }
    ensures { All IsServicePrice weights.new }
{
    for place in 0..constraints.len().min(weights.len()) {
        if !constraints[place].holds_under(decisions) {
            weights[place] = 0;
        }
    }
}

/// A point that is worth more under a branch: the weights of a shore with a high decision stand at the row of the
/// decision. It has a price for each required edge and a weight for each constraint, whatever the first point has.
pub(crate) fn lifted(
    alloc: Global,
    inst: &Instance,
    pool: &ShorePool,
    branch: &Branch,
    constraints: &[Constraint],
    point: &Point,
) -> Result<Point, Memory>
    ensures { IfOk result (IsPoint inst.now) }
{
    let prices = first_numbers(alloc, inst.required() as usize, &point.prices)?;
    let mut weights = first_numbers(alloc, constraints.len(), &point.weights)?;
    lift_all(pool, constraints, branch.decisions(), &mut weights);
    Ok(Point::new(inst, constraints, prices, weights))
}

// Lifts the weights of the shores of high decisions.
fn lift_all(
    pool: &ShorePool,
    constraints: &[Constraint],
    decisions: &[Decision],
    weights: &mut [i64],
)
    requires { All IsServicePrice weights.old }
    ensures { All IsServicePrice weights.new }
{
    for decision in decisions {
        lift_decision(pool, constraints, decision, weights);
    }
}

// Lifts the weights of the shore of a high decision.
fn lift_decision(
    pool: &ShorePool,
    constraints: &[Constraint],
    decision: &Decision,
    weights: &mut [i64],
)
    requires { All IsServicePrice weights.old }
    ensures { All IsServicePrice weights.new }
{
    if let Decision::High { shore, .. } = *decision {
        if let Some(shore) = shore_in(pool, shore) {
            if let Some(to) = constraints.iter().position(|c| c.is_of(decision)) {
                lift_weights(shore, constraints, to, weights);
            }
        }
    }
}

// Moves the weights of a shore to the row at a place.
fn lift_weights(shore: &Shore, constraints: &[Constraint], to: usize, weights: &mut [i64])
    requires to { to < length constraints.now }
    requires weights { All IsServicePrice weights.old }
    ensures { All IsServicePrice weights.new }
{
    for place in 0..constraints.len().min(weights.len()) {
        if is_lower(shore, constraints, to, place) {
            move_weight(weights, place, to);
        }
    }
}

// Whether the constraint at a place asks for fewer deadheads over a shore than that at another one.
fn is_lower(shore: &Shore, constraints: &[Constraint], to: usize, place: usize) -> bool
    requires to { to < length constraints.now }
    requires place { place < length constraints.now }
{
    constraints[place].number < constraints[to].number
        && constraints[place].asks_deadheads_over(shore)
}

// Moves the weight at a place to another one.
fn move_weight(weights: &mut [i64], from: usize, to: usize)
    requires { All IsServicePrice weights.old }
    ensures { All IsServicePrice weights.new }
{
    let sum = sum_within(number_at(weights, from), number_at(weights, to));
    put_at(weights, to, sum);
    put_at(weights, from, 0);
}

// Writes a weight at a place, if there is one.
fn put_at(weights: &mut [i64], place: usize, weight: i64)
    requires weight { IsServicePrice weight }
    requires weights { All IsServicePrice weights.old }
    ensures { All IsServicePrice weights.new }
{
    if place < weights.len() {
        weights[place] = weight;
    }
}

/// The columns of a basis.
pub(crate) fn column_in(variable: Variable) -> Option<ColumnId> {
    match variable {
        Variable::Column(column) => Some(column),
        _ => None,
    }
}
