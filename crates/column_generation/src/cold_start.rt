// The constraints, the point and the columns with which a generation begins.
ghost use Rattle.std.specs.Prelude.{◌≡◌, All, IfOk, OnOk, length};
ghost use Rattle.branch_rules.specs.Limits.{IsShoreOf};
ghost use Rattle.carp_base.specs.Problem.{IsRequired};
ghost use Rattle.route_pricing.specs.Pricing.{IsServicePrice};
ghost use Rattle.column_generation.specs.Points.{IsStart};

use crate::groups::is_small_group;
use crate::master::Master;
use crate::offers::Offer;
use crate::tours::Tour;
use branch_rules::{Branch, PriceSet, WeightedGroup, bond_room};
use carp_base::{Instance, Memory, Task};
use cut_pool::ShorePool;
use deadhead_paths::Distances;
use linear_program::{ColumnId, Program, RowId};
use price_points::{
    Point, Ranked, UNIT, clamped, floor, sort_by_share, start_prices, start_weight,
};
use std::alloc::Global;

// By how much a reduced cost may fall below 0 in the dual method, in parts of a unit of cost. Without it, costs that are a
// little below 0 make others fall without bound.
const SLACK: u64 = 1;

// So many shores of the start, those with the greatest shares of its value, have a row from the beginning.
const MOST_SHORES: usize = 60;

/// The constraints that a start has weights on, and the point of its prices and weights.
#[derive(Drop)]
pub(crate) struct Start {
    pub(crate) master: Master,
    pub(crate) point: Point,
}

impl Start {
    /// The 60 shores with the greatest shares of the value of a set, and its groups.
    pub(crate) fn of(
        alloc: Global,
        inst: &Instance,
        dist: &Distances,
        pool: &ShorePool,
        branch: &Branch,
        set: &PriceSet,
    ) -> Result<Start, Memory>
        requires dist { dist.now.problem ≡ inst.now }
        requires shores { All (λ w. IsShoreOf inst.now pool.now w.shore) set.now.weights }
        requires one_each { length set.now.services ≡ inst.now.required }
        ensures { IfOk result (IsStart inst.now) }
    {
        let mut master = Master::new(alloc, inst, dist)?;
        let mut weights = Vec::new(alloc);
        take_shores(alloc, inst, pool, branch, set, &mut master, &mut weights)?;
        take_groups(alloc, inst, set, &mut master, &mut weights)?;
        let prices = start_prices(alloc, inst, set)?;
        let point = Point::new(inst, &master.constraints, prices, weights);
        Ok(Start { master, point })
    }
}

// The places of the weights on shores, by falling shares.
fn ranks_of(
    alloc: Global,
    inst: &Instance,
    pool: &ShorePool,
    branch: &Branch,
    set: &PriceSet,
) -> Result<Vec<Ranked>, Memory>
    requires { All (λ w. IsShoreOf inst.now pool.now w.shore) set.now.weights }
{
    let mut ranks = Vec::with_capacity(alloc, set.weights())?;
    for place in 0..set.weights() {
        let weight = set.weight(place);
        let lower = branch.lower(inst, pool, weight.shore);
        ranks.push(Ranked::new(weight.weight, lower as i64, place))?;
    }
    sort_by_share(&mut ranks);
    Ok(ranks)
}

fn take_shores(
    alloc: Global,
    inst: &Instance,
    pool: &ShorePool,
    branch: &Branch,
    set: &PriceSet,
    master: &mut Master,
    weights: &mut Vec<i64>,
) -> Result<(), Memory>
    requires shores { All (λ w. IsShoreOf inst.now pool.now w.shore) set.now.weights }
    requires weights { All IsServicePrice weights.old.items }
    ensures { OnOk result (All IsServicePrice weights.new.items) }
{
    let ranks = ranks_of(alloc, inst, pool, branch, set)?;
    for place in 0..ranks.len().min(MOST_SHORES) {
        let at = ranks[place].place;
        take_shore(alloc, inst, pool, branch, set, at, master, weights)?;
    }
    Ok(())
}

// Takes the shore of the weight at a place as a constraint.
fn take_shore(
    alloc: Global,
    inst: &Instance,
    pool: &ShorePool,
    branch: &Branch,
    set: &PriceSet,
    at: usize,
    master: &mut Master,
    weights: &mut Vec<i64>,
) -> Result<(), Memory>
    requires shores { All (λ w. IsShoreOf inst.now pool.now w.shore) set.now.weights }
    requires weights { All IsServicePrice weights.old.items }
    ensures { OnOk result (All IsServicePrice weights.new.items) }
{
    if at >= set.weights() {
        return Ok(());
    }
    let number = set.weight(at).shore;
    let lower = branch.lower(inst, pool, number);
    let shore = pool.shore(number).copy(alloc)?;
    let place = master.place_of_shore(alloc, inst, shore, lower)?;
    push_weight(weights, place, start_weight(set, at))
}

fn take_groups(
    alloc: Global,
    inst: &Instance,
    set: &PriceSet,
    master: &mut Master,
    weights: &mut Vec<i64>,
) -> Result<(), Memory>
    requires { All IsServicePrice weights.old.items }
    ensures { OnOk result (All IsServicePrice weights.new.items) }
{
    let unit = set.unit();
    for group in set.groups() {
        take_group(alloc, inst, group, unit, master, weights)?;
    }
    Ok(())
}

// Takes a group as a constraint.
fn take_group(
    alloc: Global,
    inst: &Instance,
    group: &WeightedGroup,
    unit: u64,
    master: &mut Master,
    weights: &mut Vec<i64>,
) -> Result<(), Memory>
    requires { All IsServicePrice weights.old.items }
    ensures { OnOk result (All IsServicePrice weights.new.items) }
{
    let edges = group.edges();
    if !is_small_group(inst, edges) {
        return Ok(());
    }
    let room = bond_room(inst, edges);
    let place = master.place_of_group(alloc, inst, edges, room)?;
    push_weight(weights, place, group_weight(group, unit))
}

// The weight of a group by the denominator of the proposals, rounded down.
fn group_weight(group: &WeightedGroup, unit: u64) -> i64
    ensures { IsServicePrice result }
{
    let whole = i128::from(group.weight()).saturating_mul(i128::from(UNIT));
    clamped(floor(whole, unit.max(1)))
}

// Adds a weight if its constraint is the next one.
fn push_weight(weights: &mut Vec<i64>, place: Option<usize>, weight: i64) -> Result<(), Memory>
    requires weights { All IsServicePrice weights.old.items }
    requires weight { IsServicePrice weight }
    ensures { OnOk result (All IsServicePrice weights.new.items) }
{
    if place == Some(weights.len()) {
        weights.push(weight)?;
    }
    Ok(())
}

/// The program of all rows, of the deadheads, of a tour for each required edge, and of the tours that are offered.
pub(crate) fn first_program(
    alloc: Global,
    inst: &Instance,
    dist: &Distances,
    master: &mut Master,
    offers: Vec<Offer>,
) -> Result<Program, Memory>
    requires { dist.now.problem ≡ inst.now }
{
    let mut program = Program::new(alloc)?;
    program.set_slack(SLACK);
    use_rows(alloc, master, &mut program)?;
    use_deadheads(inst, &mut program)?;
    use_single_tours(alloc, inst, dist, master, &mut program)?;
    use_offers(alloc, inst, master, &mut program, offers)?;
    Ok(program)
}

fn use_rows(alloc: Global, master: &Master, program: &mut Program) -> Result<(), Memory> {
    for number in 0..master.store.row_count() {
        if let Some(row) = RowId::new(number) {
            program.use_row(alloc, &master.store, row)?;
        }
    }
    Ok(())
}

fn use_deadheads(inst: &Instance, program: &mut Program) -> Result<(), Memory> {
    for place in 0..inst.edge_count() {
        if let Some(column) = ColumnId::new(place as usize) {
            program.use_column(column)?;
        }
    }
    Ok(())
}

fn use_single_tours(
    alloc: Global,
    inst: &Instance,
    dist: &Distances,
    master: &mut Master,
    program: &mut Program,
) -> Result<(), Memory>
    requires { dist.now.problem ≡ inst.now }
{
    inst.validity();
    for place in 0..inst.required() {
        let tour = single_tour(alloc, inst, dist, place + 1)?;
        use_tour(alloc, inst, master, program, tour)?;
    }
    Ok(())
}

fn single_tour(alloc: Global, inst: &Instance, dist: &Distances, e: u32) -> Result<Tour, Memory>
    requires dist { dist.now.problem ≡ inst.now }
    requires edge { IsRequired inst.now e }
{
    let task = Task {
        edge: e,
        forward: true,
    };
    Tour::new(alloc, inst, dist, vec![in alloc; task]?)
}

fn use_offers(
    alloc: Global,
    inst: &Instance,
    master: &mut Master,
    program: &mut Program,
    offers: Vec<Offer>,
) -> Result<(), Memory> {
    for offer in offers {
        let Offer { tour, .. } = offer;
        use_tour(alloc, inst, master, program, tour)?;
    }
    Ok(())
}

/// Puts the column of a tour in use, and gives it if it was not.
pub(crate) fn use_tour(
    alloc: Global,
    inst: &Instance,
    master: &mut Master,
    program: &mut Program,
    tour: Tour,
) -> Result<Option<ColumnId>, Memory> {
    let Some(column) = master.column_of(alloc, inst, tour)? else {
        return Ok(None);
    };
    let used = program.use_column(column)?;
    Ok(if used { Some(column) } else { None })
}
