// The numbers that a helper keeps of itself.
ghost use Rattle.std.specs.Prelude.{◌≡◌, ◌+◌, ◌<◌, None, Some};
ghost use Rattle.plan_model.specs.Offers.{smaller};

/// What a helper keeps of itself: the numbers that [`plan_model::Proposer`] speaks of.
#[derive(Drop)]
pub struct Standing {
    /// Its number, which never changes.
    pub id: u64,
    /// The seed that it was given last.
    pub seed: u64,
    /// How often it was asked since it got this seed.
    pub asked: u64,
    /// How many unlawful plans it offered since it got this seed.
    pub fouls: u64,
    /// The least cost of its lawful offers since it got this seed.
    pub least: Option<u128>,
    /// The cost of its latest offer, if that was lawful.
    pub last: Option<u128>,
}

impl Standing {
    /// The standing of a helper of this id that was not asked yet, with seed 0.
    pub fn new(id: u64) -> Standing
        ensures { result ≡ record { id = id; seed = 0; asked = 0; fouls = 0; least = None; last = None } }
    {
        Standing {
            id,
            seed: 0,
            asked: 0,
            fouls: 0,
            least: None,
            last: None,
        }
    }

    /// Starts again from a seed, with nothing asked or offered.
    pub fn reseed(&mut self, word: u64)
        ensures { self.new ≡ record { id = self.old.id; seed = word; asked = 0; fouls = 0; least = None; last = None } }
    {
        *self = Standing {
            seed: word,
            ..Standing::new(self.id)
        };
    }

    /// Counts that it is asked once more, at most 1,000 times since it was seeded. There is no latest offer until it
    /// offers a lawful plan.
    pub fn ask(&mut self)
        requires { self.old.asked < 1000 }
        ensures { self.new ≡ record {
          id = self.old.id;
          seed = self.old.seed;
          asked = self.old.asked + 1;
          fouls = self.old.fouls;
          least = self.old.least;
          last = None;
        } }
    {
        self.asked += 1;
        self.last = None;
    }

    /// Counts an offer of a lawful plan of this cost.
    pub fn offer(&mut self, cost: u128)
        ensures { self.new ≡ record {
          id = self.old.id;
          seed = self.old.seed;
          asked = self.old.asked;
          fouls = self.old.fouls;
          least = smaller self.old.least (Some cost);
          last = Some cost;
        } }
    {
        self.least = Some(self.least.map_or(cost, |least| least.min(cost)));
        self.last = Some(cost);
    }
}
