// The public call.
ghost use Rattle.std.specs.Prelude.{◌≡◌, ◌≤◌, IfOk};
ghost use Rattle.group_search.specs.Violation.{AreViolated, tolerance};

use crate::effort::Effort;
use crate::flow::Flow;
use crate::group::Group;
use crate::judging::answer;
use crate::services::ground_of;
use carp_base::{Instance, Memory};
use rand_pcg::Lcg64Xsh32;
use set_search::{Extent, Search, UNIT};
use std::alloc::Global;

// From how many edges sets grow, at most, and for how many steps edges are moved in and out.
const MOST_SEEDS: u32 = 200;

const MOVES: u32 = 60;

/// A search for groups that a flow violates. It keeps a generator of random numbers, so that each call draws other
/// numbers than the one before. Two new searches give the same answers to the same calls.
#[derive(Drop)]
pub struct GroupSearch {
    generator: Lcg64Xsh32,
    work: u64,
}

impl GroupSearch {
    /// A new search, the same at each call.
    pub fn new() -> GroupSearch
        ensures { result.work ≡ 0 }
    {
        GroupSearch {
            generator: Lcg64Xsh32::new(5, 9),
            work: 0,
        }
    }

    /// How many places were looked at so far, a measure of time. It never falls, and stays at its greatest value.
    pub fn work(&self) -> u64
        ensures { result ≡ self.now.work }
    {
        self.work
    }

    /// Groups whose violation ([`crate::violation`]) is above the tolerance of the effort: at most `most`, all
    /// different, those of greatest violation first. It does not promise which of all such groups it finds.
    ///
    /// Sets grow from at most 200 edges by one edge at a time, by three rules, and the search judges each set on the
    /// way. It also judges sets that it makes of the best of these by tabu search (Augerat, Belenguer, Benavent,
    /// Corberán and Naddef 1998), towards the number of vehicles that they take and one more. The only error is want of
    /// memory.
    ///
    /// For m required edges it takes time in proportion to m * m for each edge that sets grow from, and to m for each
    /// of 60 moves of each set that is varied. It takes memory in proportion to m * (m + `most`).
    pub fn find(
        &mut self,
        alloc: Global,
        inst: &Instance,
        flow: &Flow,
        effort: Effort,
        most: usize,
    ) -> Result<Vec<Group>, Memory>
        requires { flow.now.services ≡ inst.now.required }
        ensures violated { IfOk result (λ groups. AreViolated inst.now flow.now (tolerance effort) most groups.items) }
        ensures counted { self.old.work ≤ self.new.work }
    {
        let ground = ground_of(alloc, inst, flow)?;
        let extent = extent(inst, effort, most);
        let mut search = Search::new(alloc, &ground, extent, &mut self.generator)?;
        search.grow_all(alloc, &ground, &list_seeds(alloc, inst)?)?;
        search.vary_all(alloc, &ground, &mut self.generator)?;
        self.work = self.work.saturating_add(search.work());
        answer(alloc, inst, flow, search.sets(), effort, most)
    }
}

// How far a search goes for so many answers.
fn extent(inst: &Instance, effort: Effort, most: usize) -> Extent {
    Extent {
        most,
        tolerance: i64::try_from(effort.tolerance()).unwrap_or(0),
        least_members: 2,
        sparse: false,
        growth: inst.required() + 1,
        by_demand: false,
        starts: effort.starts(),
        moves: MOVES,
        least_lack: -UNIT,
        most_vehicles: i64::MAX,
        aspiration: false,
    }
}

// The required edges from which sets grow, rising.
fn list_seeds(alloc: Global, inst: &Instance) -> Result<Vec<u32>, Memory> {
    let stride = (inst.required() + 1).div_ceil(MOST_SEEDS).max(1);
    let mut seeds = Vec::new(alloc);
    for e in 1..inst.required() + 1 {
        if e % stride == 0 {
            seeds.push(e)?;
        }
    }
    Ok(seeds)
}
