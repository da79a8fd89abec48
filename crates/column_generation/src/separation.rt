// Shores and groups that the solution of a program violates.
ghost use Rattle.edge_components.specs.Parts.{AreParts};
ghost use Rattle.price_points.specs.Problems.{IsPricingProblem};

use crate::effort::Effort;
use crate::flows::solution_of;
use crate::groups::is_small_group;
use crate::master::Master;
use branch_rules::bond_room;
use carp_base::{Instance, Memory};
use cut_pool::{Shore, need};
use group_search::{Group, GroupSearch};
use linear_program::Program;
use price_points::PricingProblem;
use shore_search::{ShoreSearch, shortfall};
use std::alloc::Global;

// So many of each kind are looked for, and so many become rows, at most.
const LOOKED_FOR: usize = 60;

const ADDED: u32 = 30;

// From so many shores on, the first of which falls short by so many parts, a quick search goes on.
const PLENTY: usize = 6;

const FAR: u64 = 20_971;

/// What a search found.
#[derive(Clone, Copy)]
pub(crate) struct Found {
    /// How many rows came into use.
    pub(crate) rows: u32,
    /// Whether a quick search is enough the next time.
    pub(crate) plenty: bool,
}

/// Searches for shores and groups.
#[derive(Drop)]
pub(crate) struct Separator {
    shores: ShoreSearch,
    groups: GroupSearch,
    /// How many searches there were.
    pub(crate) count: u32,
}

impl Separator {
    /// New searches.
    pub(crate) fn new() -> Separator {
        Separator {
            shores: ShoreSearch::new(),
            groups: GroupSearch::new(),
            count: 0,
        }
    }

    /// Puts rows of shores and groups in use that the solution of a program violates, at most 30 of each.
    pub(crate) fn separate(
        &mut self,
        alloc: Global,
        problem: &PricingProblem<'_>,
        master: &mut Master,
        program: &mut Program,
        effort: Effort,
    ) -> Result<Found, Memory>
        requires { IsPricingProblem problem.now }
    {
        self.count = self.count.saturating_add(1);
        let inst = problem.inst;
        let solution = solution_of(alloc, inst, master, program)?;
        let x = &solution.deadheads;
        let shores = self.shores.find(
            alloc,
            inst,
            problem.net,
            x,
            effort.for_shores(),
            LOOKED_FOR,
        )?;
        let groups = self.groups.find(
            alloc,
            inst,
            &solution.flow,
            effort.for_groups(),
            LOOKED_FOR,
        )?;
        let plenty = are_plenty(inst, x, &shores);
        let some = use_shores(alloc, inst, master, program, shores, self.count)?;
        let others = use_groups(alloc, inst, master, program, &groups, self.count)?;
        Ok(Found {
            rows: some.saturating_add(others),
            plenty,
        })
    }
}

// Whether there are many shores, and one falls far short.
fn are_plenty(inst: &Instance, x: &[u64], shores: &[Shore]) -> bool
    requires { AreParts inst.now x.now }
{
    if shores.len() < PLENTY {
        return false;
    }
    falls_far(inst, x, &shores[0])
}

// Whether deadheads over a shore fall far short of what it needs.
fn falls_far(inst: &Instance, x: &[u64], shore: &Shore) -> bool
    requires { AreParts inst.now x.now }
{
    if !shore.belongs(inst) {
        return false;
    }
    FAR < shortfall(inst, x, shore)
}

fn use_shores(
    alloc: Global,
    inst: &Instance,
    master: &mut Master,
    program: &mut Program,
    shores: Vec<Shore>,
    now: u32,
) -> Result<u32, Memory> {
    let mut rows: u32 = 0;
    for shore in shores {
        if rows < ADDED {
            let used = use_shore(alloc, inst, master, program, shore, now)?;
            rows = rows.saturating_add(u32::from(used));
        }
    }
    Ok(rows)
}

// Puts the row of a shore in use, and answers whether it was not.
fn use_shore(
    alloc: Global,
    inst: &Instance,
    master: &mut Master,
    program: &mut Program,
    shore: Shore,
    now: u32,
) -> Result<bool, Memory> {
    if !shore.belongs(inst) {
        return Ok(false);
    }
    let lower = need(inst, &shore);
    match master.place_of_shore(alloc, inst, shore, lower)? {
        Some(place) => use_place(alloc, inst, master, program, place, now),
        None => Ok(false),
    }
}

fn use_groups(
    alloc: Global,
    inst: &Instance,
    master: &mut Master,
    program: &mut Program,
    groups: &[Group],
    now: u32,
) -> Result<u32, Memory> {
    let mut rows: u32 = 0;
    for group in groups {
        if rows < ADDED {
            let used = use_group(alloc, inst, master, program, group.edges(), now)?;
            rows = rows.saturating_add(u32::from(used));
        }
    }
    Ok(rows)
}

// Puts the row of a group in use, and answers whether it was not.
fn use_group(
    alloc: Global,
    inst: &Instance,
    master: &mut Master,
    program: &mut Program,
    edges: &[u32],
    now: u32,
) -> Result<bool, Memory> {
    if !is_small_group(inst, edges) {
        return Ok(false);
    }
    let room = bond_room(inst, edges);
    match master.place_of_group(alloc, inst, edges, room)? {
        Some(place) => use_place(alloc, inst, master, program, place, now),
        None => Ok(false),
    }
}

/// Puts the row of the constraint at a place in use, and answers whether it was not.
pub(crate) fn use_place(
    alloc: Global,
    inst: &Instance,
    master: &mut Master,
    program: &mut Program,
    place: usize,
    now: u32,
) -> Result<bool, Memory> {
    let Some(row) = master.row(inst, place) else {
        return Ok(false);
    };
    let used = program.use_row(alloc, &master.store, row)?;
    if used {
        master.note_use(place, now);
    }
    Ok(used)
}
