// The rows and columns that are known so far.
ghost use Rattle.std.specs.Prelude.{◌≡◌};
ghost use Rattle.carp_base.specs.Problem.{IsRequired};

use crate::numbers::{coefficient, mixed};
use crate::scale::{Scale, shore_bounds, way_to};
use crate::tours::Tour;
use branch_rules::Decision;
use carp_base::{Edge, Instance, Memory};
use cut_pool::Shore;
use deadhead_paths::Distances;
use linear_program::{ColumnId, Entry, RowBounds, RowId, Store};
use price_points::{Constraint, Demand, Members, UNIT};
use std::alloc::Global;
use std::collections::HashMap;

// So many tours are kept at most.
const MOST_TOURS: usize = 60_000;

// Two edges of the same cost differ in that of their columns by less than so many parts.
const NOISE: u64 = 256;

/// The rows and columns that are known so far. Rows of services stand before those of constraints, and columns of
/// deadheads before those of tours.
#[derive(Drop)]
pub(crate) struct Master {
    pub(crate) store: Store,
    pub(crate) constraints: Vec<Constraint>,
    /// For each constraint, the search that put its row in use last.
    pub(crate) since: Vec<u32>,
    pub(crate) tours: Vec<Tour>,
    pub(crate) scale: Scale,
    // The column of each tour, by the tour's number.
    known: HashMap<u64, ColumnId>,
}

impl Master {
    /// A row for each service and a column for each deadhead.
    pub(crate) fn new(alloc: Global, inst: &Instance, dist: &Distances) -> Result<Master, Memory>
        requires { dist.now.problem ≡ inst.now }
    {
        let scale = Scale::of(inst, dist);
        let mut store = Store::new(alloc, scale.penalty());
        add_services(inst, dist, scale, &mut store)?;
        add_deadheads(alloc, inst.edges(), &mut store)?;
        Ok(Master {
            store,
            constraints: Vec::new(alloc),
            since: Vec::new(alloc),
            tours: Vec::new(alloc),
            scale,
            known: HashMap::new(alloc),
        })
    }

    /// The row of the constraint at a place.
    pub(crate) fn row(&self, inst: &Instance, place: usize) -> Option<RowId> {
        RowId::new(place.saturating_add(inst.required() as usize))
    }

    /// Notes that a search put the constraint at a place in use.
    pub(crate) fn note_use(&mut self, place: usize, now: u32) {
        if place < self.since.len() {
            self.since[place] = now;
        }
    }

    /// Whether no tour can be added.
    pub(crate) fn is_full(&self) -> bool {
        self.tours.len() >= MOST_TOURS
    }

    /// The place of the constraint on a shore, with at least so many deadheads over it if it is new. It is `None` if
    /// there is no room for it.
    pub(crate) fn place_of_shore(
        &mut self,
        alloc: Global,
        inst: &Instance,
        shore: Shore,
        number: u64,
    ) -> Result<Option<usize>, Memory> {
        let held = self.constraints.iter().position(|c| c.is_on_shore(&shore));
        if held.is_some() {
            return Ok(held);
        }
        self.add(
            alloc,
            inst,
            Constraint::new(Demand::Deadheads(shore), number),
        )
    }

    /// The place of the constraint on a group, with so much room if it is new. It is `None` if there is no room for it.
    pub(crate) fn place_of_group(
        &mut self,
        alloc: Global,
        inst: &Instance,
        edges: &[u32],
        room: u64,
    ) -> Result<Option<usize>, Memory> {
        let held = self.constraints.iter().position(|c| c.is_on_group(edges));
        if held.is_some() {
            return Ok(held);
        }
        let members = Members::new(alloc, inst.required(), edges)?;
        self.add(alloc, inst, Constraint::new(Demand::Bonds(members), room))
    }

    /// The place of the constraint of a decision, which is added if it is new. It is `None` if there is no room for it.
    pub(crate) fn place_of_decision(
        &mut self,
        alloc: Global,
        inst: &Instance,
        decision: Decision,
        demand: Demand,
        number: u64,
    ) -> Result<Option<usize>, Memory> {
        let held = self.constraints.iter().position(|c| c.is_of(&decision));
        if held.is_some() {
            return Ok(held);
        }
        let constraint = Constraint {
            demand,
            number,
            decision: Some(decision),
        };
        self.add(alloc, inst, constraint)
    }

    /// Takes out the constraints from a place on. No program may have one of them in use.
    pub(crate) fn forget_constraints(&mut self, inst: &Instance, count: usize) {
        self.constraints.truncate(count);
        self.since.truncate(count);
        let rows = count.saturating_add(inst.required() as usize);
        self.store.forget_rows(rows);
    }

    // Adds a constraint, and answers its place.
    fn add(
        &mut self,
        alloc: Global,
        inst: &Instance,
        constraint: Constraint,
    ) -> Result<Option<usize>, Memory> {
        let place = self.constraints.len();
        let bounds = self.bounds(inst.edges(), &constraint);
        let coefficients = self.coefficients(alloc, inst.edges(), &constraint)?;
        if self.store.add_row(bounds, &coefficients)?.is_none() {
            return Ok(None);
        }
        self.constraints.push(constraint)?;
        self.since.push(0)?;
        Ok(Some(place))
    }

    // The bounds of its row.
    fn bounds(&self, edges: &[Edge], constraint: &Constraint) -> RowBounds {
        let right_side = constraint.right_side();
        if constraint.decision.is_some() {
            return self.scale.decision_bounds(right_side);
        }
        match &constraint.demand {
            Demand::Deadheads(shore) => shore_bounds(edges, shore, right_side),
            _ => self.scale.group_bounds(right_side),
        }
    }

    // The coefficients of the deadheads and of the tours so far.
    fn coefficients(
        &self,
        alloc: Global,
        edges: &[Edge],
        constraint: &Constraint,
    ) -> Result<Vec<i32>, Memory> {
        let mut coefficients = Vec::with_capacity(alloc, self.store.column_count())?;
        push_deadheads(edges, constraint, &mut coefficients)?;
        push_tours(edges, &self.tours, constraint, &mut coefficients)?;
        Ok(coefficients)
    }

    /// The column of a tour, which is added if it is new. It is `None` if there is no room for it.
    pub(crate) fn column_of(
        &mut self,
        alloc: Global,
        inst: &Instance,
        tour: Tour,
    ) -> Result<Option<ColumnId>, Memory> {
        let number = tour.number();
        if let Some(column) = self.known.get(&number) {
            return Ok(Some(*column));
        }
        if self.is_full() {
            return Ok(None);
        }
        let edges = inst.edges();
        let entries = self.entries(alloc, inst, &tour)?;
        let added = self.store.add_column(tour.cost(edges, number), entries)?;
        if let Some(column) = added {
            self.tours.push(tour)?;
            self.known.insert(number, column)?;
        }
        Ok(added)
    }

    // The coefficients of a tour, rows rising.
    fn entries(&self, alloc: Global, inst: &Instance, tour: &Tour) -> Result<Vec<Entry>, Memory> {
        let mut entries = Vec::new(alloc);
        add_service_entries(tour, &mut entries)?;
        let first = inst.required() as usize;
        add_constraint_entries(inst.edges(), &self.constraints, first, tour, &mut entries)?;
        Ok(entries)
    }
}

// A row for each service.
fn add_services(
    inst: &Instance,
    dist: &Distances,
    scale: Scale,
    store: &mut Store,
) -> Result<(), Memory>
    requires { dist.now.problem ≡ inst.now }
{
    for e in 1..inst.required() + 1 {
        let bounds = service_bounds(inst, dist, scale, e);
        store.add_row(bounds, &[])?;
    }
    Ok(())
}

fn service_bounds(inst: &Instance, dist: &Distances, scale: Scale, e: u32) -> RowBounds
    requires dist { dist.now.problem ≡ inst.now }
    requires edge { IsRequired inst.now e }
{
    inst.validity();
    scale.service_bounds(inst.edge(e).cost, way_to(inst, dist, e))
}

// A column for each deadhead.
fn add_deadheads(alloc: Global, edges: &[Edge], store: &mut Store) -> Result<(), Memory> {
    for place in 0..edges.len() {
        store.add_column(deadhead_cost(&edges[place], place), Vec::new(alloc))?;
    }
    Ok(())
}

// What a deadhead costs, in parts, with a noise, so that few deadheads are alike.
fn deadhead_cost(edge: &Edge, place: usize) -> i64 {
    let noise = mixed((place as u64).wrapping_add(99)) % NOISE;
    let parts = edge.cost.saturating_mul(UNIT).saturating_add(noise);
    parts.min(1 << 55) as i64
}

fn push_deadheads(
    edges: &[Edge],
    constraint: &Constraint,
    coefficients: &mut Vec<i32>,
) -> Result<(), Memory> {
    for edge in edges {
        coefficients.push(coefficient(constraint.of_edge(edge)))?;
    }
    Ok(())
}

fn push_tours(
    edges: &[Edge],
    tours: &[Tour],
    constraint: &Constraint,
    coefficients: &mut Vec<i32>,
) -> Result<(), Memory> {
    for tour in tours {
        coefficients.push(coefficient(tour.coefficient(edges, constraint)))?;
    }
    Ok(())
}

// Adds the coefficient of a row if it is not 0.
fn add_entry(entries: &mut Vec<Entry>, row: usize, count: i64) -> Result<(), Memory> {
    if count != 0 {
        if let Some(row) = RowId::new(row) {
            if let Some(entry) = Entry::new(row, coefficient(count)) {
                entries.push(entry)?;
            }
        }
    }
    Ok(())
}

fn add_service_entries(tour: &Tour, entries: &mut Vec<Entry>) -> Result<(), Memory> {
    for count in &tour.services {
        add_entry(entries, count.place, count.times)?;
    }
    Ok(())
}

fn add_constraint_entries(
    edges: &[Edge],
    constraints: &[Constraint],
    first: usize,
    tour: &Tour,
    entries: &mut Vec<Entry>,
) -> Result<(), Memory> {
    for place in 0..constraints.len() {
        let count = tour.coefficient(edges, &constraints[place]);
        add_entry(entries, first.saturating_add(place), count)?;
    }
    Ok(())
}
