// The best sets so far.
ghost use Rattle.std.specs.Prelude.{◌≤◌, length};

use crate::growing::Growing;
use carp_base::Memory;
use std::alloc::Global;

/// A set that was found.
#[derive(Drop)]
pub struct Candidate {
    score: i64,
    // A number that tells it from other sets.
    key: u64,
    // The run of sets in which it was found.
    run: u64,
    pub(crate) marks: Vec<bool>,
}

impl Candidate {
    /// Which elements are inside: a mark for each place.
    pub fn marks(&self) -> &[bool] {
        &self.marks
    }
}

// So many sets of greatest score at most, the greatest first: no set twice, and one of each run.
#[derive(Drop)]
pub(crate) struct Best {
    most: usize,
    pub(crate) sets: Vec<Candidate>,
}

impl Best {
    pub(crate) fn new(alloc: Global, most: usize) -> Best {
        Best {
            most,
            sets: Vec::new(alloc),
        }
    }

    // Whether a set of this score comes in, if it is not held.
    fn takes(&self, score: i64) -> bool {
        match self.sets.last() {
            Some(last) => self.sets.len() < self.most || last.score < score,
            None => 0 < self.most,
        }
    }

    // Whether the set is held, or one of its run that is as good.
    fn holds(&self, score: i64, key: u64, run: u64) -> bool {
        self.sets.iter().any(|held| held.key == key || (held.run == run && score <= held.score))
    }

    // The place of a new set of this score.
    fn place(&self, score: i64) -> usize
        ensures { result ≤ length self.now.sets.items }
    {
        for (place, held) in self.sets.iter().enumerate() {
            if held.score < score {
                return place;
            }
        }
        self.sets.len()
    }

    // Takes a set up, if it is one of the best.
    pub(crate) fn offer(
        &mut self,
        alloc: Global,
        score: i64,
        run: u64,
        set: &Growing,
    ) -> Result<(), Memory> {
        if !self.takes(score) || self.holds(score, set.key, run) {
            return Ok(());
        }
        self.sets.retain(|held| held.run != run);
        let candidate = Candidate {
            score,
            key: set.key,
            run,
            marks: set.marks(alloc)?,
        };
        let place = self.place(score);
        self.sets.insert(place, candidate)?;
        self.sets.truncate(self.most);
        Ok(())
    }
}
