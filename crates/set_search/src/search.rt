// The ways in which sets are looked for.
use crate::aims::{Aim, Joining, Target};
use crate::best::{Best, Candidate};
use crate::draws::draw;
use crate::extent::{Extent, Run};
use crate::ground::Ground;
use crate::growing::Growing;
use carp_base::Memory;
use rand_pcg::Lcg64Xsh32;
use std::alloc::Global;
use std::mem;

// One part of a cut stands before so many loads of demand: demand only tells apart elements of equal cuts.
const TIE: i64 = 1024;

// In what order elements join a set.
#[derive(Clone, Copy)]
enum Rule {
    LeastCut,
    MostDemand,
    NextVehicle,
}

/// A search for sets of one ground.
#[derive(Drop)]
pub struct Search {
    growing: Growing,
    extent: Extent,
    // The sets of greatest shortfall.
    found: Best,
    // The best set of each growth, from which elements are moved in and out.
    starts: Best,
    growths: u64,
    run: Run,
}

impl Search {
    /// A search that has found nothing yet. The names of the elements are drawn at random. The only error, here and in
    /// each call, is want of memory. It takes time and memory in proportion to the elements, and time in proportion to
    /// the links.
    pub fn new(
        alloc: Global,
        ground: &Ground,
        extent: Extent,
        generator: &mut Lcg64Xsh32,
    ) -> Result<Search, Memory> {
        Ok(Search {
            growing: Growing::new(alloc, ground, generator)?,
            extent,
            found: Best::new(alloc, extent.most),
            starts: Best::new(alloc, extent.starts),
            growths: 0,
            run: Run::new(),
        })
    }

    /// The best sets so far, those of greatest shortfall first: the earlier ones first of those with equal ones.
    pub fn sets(&self) -> &[Candidate] {
        &self.found.sets
    }

    /// How many places and links were looked at so far, a measure of time.
    pub fn work(&self) -> u64 {
        self.growing.work
    }

    /// Counts that its caller looked at so many places and links.
    pub fn count(&mut self, looks: usize) {
        self.growing.count(looks);
    }

    // How many vehicles the demand of the set takes.
    fn vehicles(&self, ground: &Ground) -> i64 {
        ground.vehicles(self.growing.sums.demand)
    }

    // Judges the set as it stands.
    fn note(&mut self, alloc: Global, ground: &Ground) -> Result<(), Memory> {
        let vehicles = self.vehicles(ground);
        self.run = self.run.next(vehicles, self.extent.sparse);
        let shortfall = self.growing.shortfall(vehicles);
        if self.extent.tolerance < shortfall
            && self.extent.least_members <= self.growing.sums.members
        {
            self.found
                .offer(alloc, shortfall, self.run.number, &self.growing)?;
        }
        Ok(())
    }

    // Judges the set as it stands, with the others of its growth.
    fn note_growth(&mut self, alloc: Global, ground: &Ground) -> Result<(), Memory> {
        let lack = self.growing.lack(self.vehicles(ground));
        if self.extent.least_lack < lack && self.extent.least_members <= self.growing.sums.members {
            self.starts.offer(alloc, lack, self.growths, &self.growing)?;
        }
        self.note(alloc, ground)
    }

    /// Judges the set of these elements, each named once. It takes time in proportion to their links.
    pub fn judge(
        &mut self,
        alloc: Global,
        ground: &Ground,
        elements: &[u32],
    ) -> Result<(), Memory> {
        if !self.growing.is_empty() {
            self.growing.clear();
        }
        self.run = self.run.ended();
        self.growing.move_all(ground, elements);
        self.note(alloc, ground)?;
        self.growing.move_all(ground, elements);
        Ok(())
    }

    /// Judges the set of the marked elements, if there are some. It may also become one from which elements are moved in
    /// and out. It takes time in proportion to all elements and the links of the marked ones.
    pub fn judge_start(
        &mut self,
        alloc: Global,
        ground: &Ground,
        marks: &[bool],
    ) -> Result<(), Memory> {
        self.run = self.run.ended();
        self.growths = self.growths.saturating_add(1);
        self.growing.load(ground, marks);
        if self.growing.is_empty() {
            return Ok(());
        }
        self.note_growth(alloc, ground)
    }

    // What a rule aims at from the set as it stands.
    fn aim(&self, ground: &Ground, rule: Rule) -> Aim {
        let capacity = ground.load();
        let scale = capacity.saturating_mul(TIE);
        let by_demand = self.extent.by_demand;
        Aim::Join(match rule {
            Rule::LeastCut => Joining::LeastCut { scale },
            Rule::MostDemand => Joining::MostDemand { capacity },
            Rule::NextVehicle => Joining::NextVehicle {
                scale: if by_demand { scale } else { 1 },
                weight: i64::from(by_demand),
                carried: self.vehicles(ground).saturating_mul(capacity),
            },
        })
    }

    // Lets a set grow from an element by a rule, and judges each set on the way.
    fn grow(
        &mut self,
        alloc: Global,
        ground: &Ground,
        seed: usize,
        rule: Rule,
    ) -> Result<(), Memory> {
        self.run = self.run.ended();
        self.growths = self.growths.saturating_add(1);
        self.growing.clear();
        self.growing.move_element(ground, seed);
        for _ in 0..self.extent.growth {
            self.note_growth(alloc, ground)?;
            let aim = self.aim(ground, rule);
            let Some(choice) = self.growing.choose(ground, aim) else {
                break;
            };
            self.growing.move_element(ground, choice.element);
        }
        Ok(())
    }

    /// Lets sets grow from elements, by three rules: the least cut, the most demand, and the next vehicle. It judges each
    /// set on the way. It takes time in proportion to the elements for each step of each growth.
    pub fn grow_all(
        &mut self,
        alloc: Global,
        ground: &Ground,
        seeds: &[u32],
    ) -> Result<(), Memory> {
        for seed in seeds {
            let seed = *seed as usize;
            self.grow(alloc, ground, seed, Rule::LeastCut)?;
            self.grow(alloc, ground, seed, Rule::MostDemand)?;
            self.grow(alloc, ground, seed, Rule::NextVehicle)?;
        }
        Ok(())
    }

    // Moves elements of a set in and out, towards a demand that takes so many vehicles, and judges each set on the way
    // (tabu search, Glover 1989).
    fn vary(
        &mut self,
        alloc: Global,
        ground: &Ground,
        start: &[bool],
        vehicles: i64,
        generator: &mut Lcg64Xsh32,
    ) -> Result<(), Memory> {
        let capacity = ground.load();
        let full = vehicles.saturating_sub(1).saturating_mul(capacity);
        let wanted = full.saturating_add(1);
        let mut record = if self.extent.aspiration {
            i64::MAX
        } else {
            i64::MIN
        };
        self.run = self.run.ended();
        self.growing.load(ground, start);
        for step in 0..self.extent.moves {
            let target = Target {
                capacity,
                wanted,
                step,
                record,
            };
            let Some(choice) = self.growing.choose(ground, Aim::Reach(target)) else {
                break;
            };
            self.growing.move_element(ground, choice.element);
            let until = step.saturating_add(5 + draw(generator, 8));
            self.growing.rest(choice.element, until);
            if self.growing.is_empty() {
                break;
            }
            record = record.min(choice.value);
            self.note(alloc, ground)?;
        }
        Ok(())
    }

    // Varies a set towards the vehicles that it takes, and towards one more.
    fn vary_both(
        &mut self,
        alloc: Global,
        ground: &Ground,
        start: &[bool],
        generator: &mut Lcg64Xsh32,
    ) -> Result<(), Memory> {
        self.growing.load(ground, start);
        let vehicles = self.vehicles(ground);
        self.vary(alloc, ground, start, vehicles, generator)?;
        if vehicles < self.extent.most_vehicles {
            let more = vehicles.saturating_add(1);
            self.vary(alloc, ground, start, more, generator)?;
        }
        Ok(())
    }

    /// Varies the best sets that have grown by tabu search, towards the number of vehicles that they take and one more.
    /// It judges each set on the way, and forgets the sets that it began with. It takes time in proportion to the
    /// elements for each move.
    pub fn vary_all(
        &mut self,
        alloc: Global,
        ground: &Ground,
        generator: &mut Lcg64Xsh32,
    ) -> Result<(), Memory> {
        let starts = mem::replace(&mut self.starts, Best::new(alloc, 0));
        for start in &starts.sets {
            self.vary_both(alloc, ground, &start.marks, generator)?;
        }
        Ok(())
    }
}
