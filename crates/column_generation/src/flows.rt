// What the tours and the deadheads of a program's solution cross and serve.
ghost use Rattle.std.specs.Prelude.{◌≡◌, IfOk};
ghost use Rattle.edge_components.specs.Parts.{AreParts};

use crate::master::Master;
use crate::tours::Tour;
use carp_base::{Instance, Memory, Task};
use group_search::Flow;
use linear_program::{Basic, ColumnId, Program, Variable};
use price_points::{add_at, parts_of};
use std::alloc::Global;

// A program's activities have 40 binary places, and flows have 20.
const FINER: i64 = 1 << 20;

// No column counts for more.
const MOST_ACTIVITY: i64 = 1 << 52;

/// How often the solution of a program crosses each edge without service, and how often one service follows another,
/// in parts of 2^20.
#[derive(Drop)]
pub struct Solution {
    /// How often each edge is crossed without service, in the order of the edges.
    pub deadheads: Vec<u64>,
    /// How often one service follows another.
    pub flow: Flow,
}

/// The solution of a program.
pub(crate) fn solution_of(
    alloc: Global,
    inst: &Instance,
    master: &Master,
    program: &Program,
) -> Result<Solution, Memory>
    ensures parts { IfOk result (λ solution. AreParts inst.now solution.deadheads.items) }
    ensures services { IfOk result (λ solution. solution.flow.services ≡ inst.now.required) }
{
    let mut deadheads = vec![in alloc; 0; inst.edge_count() as usize]?;
    let mut flow = Flow::new(alloc, inst)?;
    for place in 0..program.rows().len() {
        if let Some(basic) = program.basic(place) {
            add_basic(master, &basic, &mut deadheads, &mut flow);
        }
    }
    Ok(Solution {
        deadheads: parts_of(alloc, inst, &deadheads)?,
        flow,
    })
}

// Adds the parts of a variable of the basis. Units of rows count for nothing.
fn add_basic(master: &Master, basic: &Basic, deadheads: &mut [i64], flow: &mut Flow)
    ensures { flow.new.services ≡ flow.old.services }
{
    let parts = parts(basic.activity);
    if let Variable::Column(column) = basic.variable {
        add_column(master, column, parts, deadheads, flow);
    }
}

// An activity in parts.
fn parts(activity: i64) -> i64 {
    activity.clamp(0, MOST_ACTIVITY) / FINER
}

// Adds so many parts of a column. Columns of deadheads stand before those of tours.
fn add_column(master: &Master, column: ColumnId, parts: i64, deadheads: &mut [i64], flow: &mut Flow)
    ensures { flow.new.services ≡ flow.old.services }
{
    let number = column.number();
    if number < deadheads.len() {
        add_at(deadheads, number, parts);
    } else if let Some(tour) = master.tours.get(number - deadheads.len()) {
        add_tour_deadheads(tour, parts, deadheads);
        add_tour_flow(&tour.tasks, parts.max(0) as u64, flow);
    }
}

fn add_tour_deadheads(tour: &Tour, parts: i64, deadheads: &mut [i64]) {
    for count in &tour.deadheads {
        add_at(deadheads, count.place, parts.saturating_mul(count.times));
    }
}

// Adds the flow from the depot along the tasks of a tour and back.
fn add_tour_flow(tasks: &[Task], parts: u64, flow: &mut Flow)
    ensures { flow.new.services ≡ flow.old.services }
{
    let mut before = 0;
    for task in tasks {
        add_flow(flow, before, task.edge, parts);
        before = task.edge;
    }
    add_flow(flow, before, 0, parts);
}

// Adds flow between two services, if both are there.
fn add_flow(flow: &mut Flow, e: u32, f: u32, parts: u64)
    ensures { flow.new.services ≡ flow.old.services }
{
    if e <= flow.services() && f <= flow.services() {
        flow.add(e, f, parts);
    }
}
