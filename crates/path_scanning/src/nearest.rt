// The task that a tour takes next.
ghost use Rattle.std.specs.Prelude.{◌≡◌, ℕ, ◌≤◌, length, MatchOption};
ghost use Rattle.carp_base.specs.Problem.{IsRequired};
ghost use Rattle.deadhead_paths.specs.Prices.{costs_of};
ghost use Rattle.task_tours.specs.Tours.{IsStand};
ghost use Rattle.path_scanning.specs.Scans.{FitsNext, IsFirstTask, IsMeasured, ScanMoment};

use crate::candidate::Candidate;
use crate::rule::Rule;
use carp_base::{Instance, Task};
use deadhead_paths::Distances;
use task_tours::{ends, least_cost};

// A task with the numbers by which it is compared, for a tour that stands at a vertex.
fn measure(inst: &Instance, dist: &Distances, at: u32, task: Task) -> Candidate
    requires problem { dist.now.problem ≡ inst.now }
    requires prices { dist.now.prices ≡ costs_of inst.now }
    requires stand { IsStand inst.now at }
    requires required { IsRequired inst.now task.edge }
    ensures task { result.task ≡ task }
    ensures measured { IsMeasured inst.now at result }
{
    let depot = inst.depot();
    let (tail, head) = ends(inst, task);
    let edge = inst.edge(task.edge);
    Candidate {
        task,
        near: least_cost(inst, dist, at, tail),
        home: least_cost(inst, dist, head, depot),
        service: edge.service,
        demand: edge.demand,
    }
}

// The first of the tasks that a tour can take at a moment, or none if nothing fits.
pub(crate) fn nearest(
    inst: &Instance,
    dist: &Distances,
    rule: Rule,
    served: &[bool],
    at: u32,
    load: u64,
) -> Option<Candidate>
    requires problem { dist.now.problem ≡ inst.now }
    requires prices { dist.now.prices ≡ costs_of inst.now }
    requires stand { IsStand inst.now at }
    requires flags { length served.now ≡ inst.now.required }
    requires load { load ≤ inst.now.capacity }
    ensures { let moment : ScanMoment = record { served = served.now; at = at; load = load } in MatchOption result ((e : ℕ) → ¬ (FitsNext inst.now moment e)) (IsFirstTask inst.now rule moment) }
{
    let tie = rule.tie(inst.capacity(), load);
    let mut best: Option<Candidate> = None;
    for edge in 1..inst.required() + 1 {
        if !served[edge as usize - 1] && load + inst.edge(edge).demand <= inst.capacity() {
            let forward = measure(
                inst,
                dist,
                at,
                Task {
                    edge,
                    forward: true,
                },
            );
            let backward = measure(
                inst,
                dist,
                at,
                Task {
                    edge,
                    forward: false,
                },
            );
            let next = forward.first_of(backward, tie);
            best = match best {
                Some(found) => Some(found.first_of(next, tie)),
                None => Some(next),
            };
        }
    }
    best
}
