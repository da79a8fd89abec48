// The public call.
ghost use Rattle.std.specs.Prelude.{◌≡◌, ◌≤◌, IfOk};
ghost use Rattle.edge_components.specs.Parts.{AreParts};
ghost use Rattle.shore_search.specs.Shortfall.{AreShort};
ghost use Rattle.shore_search.specs.Tables.{AreStreets};

use crate::judging::{TOLERANCE, answer};
use crate::separating::{all_components, all_cuts, ground_of, single_vertices};
use crate::streets::Streets;
use carp_base::{Instance, Memory};
use cut_pool::Shore;
use rand_pcg::Lcg64Xsh32;
use road_network::Network;
use set_search::{Extent, Search, shuffle};
use std::alloc::Global;

// Above so many vertices sets that grow are much alike, and only some of them are kept.
const MANY_VERTICES: u32 = 300;

/// How much a search looks at.
#[derive(Clone, Copy, Debug, PartialEq, Eq)]
pub enum Effort {
    /// Sets that grow from some 40 vertices, and small changes of the 8 best of them.
    Quick,
    /// Sets that grow from up to 400 vertices (60 of more than 300), and longer runs of changes of the 30 best of them.
    Full,
}

impl Effort {
    // From how many vertices sets grow.
    fn seeds(self, vertices: u32) -> usize {
        match self {
            Effort::Quick => 40,
            Effort::Full if MANY_VERTICES < vertices => 60,
            Effort::Full => 400,
        }
    }

    // How far it goes among so many vertices, for so many answers, where all take so many vehicles.
    fn extent(self, vertices: u32, most: usize, most_vehicles: i64) -> Extent {
        let growth = vertices.min(MANY_VERTICES);
        let (starts, moves) = match self {
            Effort::Quick => (8, vertices.min(60)),
            Effort::Full => (30, vertices.saturating_mul(2).min(200)),
        };
        Extent {
            most,
            tolerance: TOLERANCE as i64,
            least_members: 1,
            sparse: MANY_VERTICES < vertices,
            growth,
            by_demand: true,
            starts,
            moves,
            least_lack: i64::MIN,
            most_vehicles,
            aspiration: true,
        }
    }
}

/// A search for sets of vertices that deadheads leave short. It keeps a generator of random numbers, so that each call
/// starts at other vertices than the one before. Two new searches give the same answers to the same calls.
#[derive(Drop)]
pub struct ShoreSearch {
    generator: Lcg64Xsh32,
    work: u64,
}

impl ShoreSearch {
    /// A new search, the same at each call.
    pub fn new() -> ShoreSearch
        ensures { result.work ≡ 0 }
    {
        ShoreSearch {
            generator: Lcg64Xsh32::new(7, 3),
            work: 0,
        }
    }

    /// How many places and edges were looked at so far, a measure of time. It never falls, and stays at its greatest value.
    pub fn work(&self) -> u64
        ensures { result ≡ self.now.work }
    {
        self.work
    }

    /// Shores whose deadheads fall short of what they need by more than a thousandth of one deadhead
    /// ([`crate::shortfall`]): at most `most`, all different, those of greatest shortfall first. It does not promise
    /// which of all such shores it finds.
    ///
    /// `x` has a number for each edge, in the order of the edges, each at most 10^12: its deadheads in parts of 2^20.
    /// It judges single vertices, the components of edges with deadheads, the least cuts of ten networks in which
    /// demand counts for more and more, and sets that grow from single vertices by one vertex at a time. It also judges
    /// sets that are varied by tabu search (Augerat, Belenguer, Benavent, Corberán and Naddef 1998) towards the number
    /// of vehicles that they take and one more. The only error is want of memory.
    ///
    /// With n vertices and m edges it takes ten greatest flows, time in proportion to n * n for each of the at most 400
    /// vertices that sets grow from, and time in proportion to n * n + m for the components. It takes memory in
    /// proportion to n * `most` + m.
    pub fn find(
        &mut self,
        alloc: Global,
        inst: &Instance,
        net: &Network,
        x: &[u64],
        effort: Effort,
        most: usize,
    ) -> Result<Vec<Shore>, Memory>
        requires net { net.now ≡ inst.now }
        requires parts { AreParts inst.now x.now }
        ensures short { IfOk result (λ shores. AreShort inst.now x.now most shores.items) }
        ensures counted { self.old.work ≤ self.new.work }
    {
        let streets = Streets::new(alloc, inst, net, x)?;
        let ground = ground_of(alloc, &streets)?;
        let most_vehicles = ground.vehicles(streets.demand);
        let extent = effort.extent(inst.vertices(), most, most_vehicles);
        let mut search = Search::new(alloc, &ground, extent, &mut self.generator)?;
        single_vertices(alloc, inst, &ground, &mut search)?;
        all_components(alloc, inst, net, x, &ground, &mut search)?;
        all_cuts(alloc, &streets, &ground, &mut search)?;
        let seeds = effort.seeds(inst.vertices());
        let seeds = draw_seeds(alloc, inst, seeds, &mut self.generator)?;
        search.grow_all(alloc, &ground, &seeds)?;
        search.vary_all(alloc, &ground, &mut self.generator)?;
        self.work = self.work.saturating_add(search.work());
        answer(alloc, inst, x, search.sets(), most)
    }
}

// So many vertices at most, drawn at random, without the depot.
fn draw_seeds(
    alloc: Global,
    inst: &Instance,
    most: usize,
    generator: &mut Lcg64Xsh32,
) -> Result<Vec<u32>, Memory> {
    let mut seeds = Vec::with_capacity(alloc, inst.vertices() as usize)?;
    for v in 1..inst.vertices() + 1 {
        if v != inst.depot() {
            seeds.push(v)?;
        }
    }
    shuffle(&mut seeds, generator);
    seeds.truncate(most);
    Ok(seeds)
}
