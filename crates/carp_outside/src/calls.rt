// Numbered calls of one kind, some of which fail.
ghost use Rattle.std.specs.Prelude.{◌≡◌, ◌≤◌, ◌↔◌, IsTrue};
ghost use Rattle.carp_outside.specs.Causes.{grown};
ghost use Rattle.carp_outside.specs.Calls.{IsListed, empty_log, log_of};

/// The calls of one kind so far, and the numbers, from 1, of those that are to fail.
#[derive(Drop)]
pub(crate) struct Calls {
    made: u64,
    failing: Vec<u64>,
    faults: u64,
}

impl Calls {
    // No call yet.
    pub(crate) fn new(failing: Vec<u64>) -> Calls
        ensures { log_of result ≡ empty_log failing.items }
    {
        Calls {
            made: 0,
            failing,
            faults: 0,
        }
    }

    // Counts a call, and says whether it is to fail.
    pub(crate) fn next_fails(&mut self) -> bool
        ensures fails { IsTrue result ↔ IsListed (log_of self.old) }
        ensures made { self.new.made ≡ grown self.old.made 1 }
        ensures failing { self.new.failing.items ≡ self.old.failing.items }
        ensures faults { self.new.faults ≡ self.old.faults }
    {
        // A call past the last number of 64 bits is never listed.
        let number = u128::from(self.made) + 1;
        self.made = self.made.saturating_add(1);
        self.failing
            .iter()
            .any(|listed| u128::from(*listed) == number)
    }

    // Counts a fault.
    pub(crate) fn add_fault(&mut self)
        ensures made { self.new.made ≡ self.old.made }
        ensures failing { self.new.failing.items ≡ self.old.failing.items }
        ensures faults { self.new.faults ≡ grown self.old.faults 1 }
        ensures later { self.old.faults ≤ self.new.faults }
    {
        self.faults = self.faults.saturating_add(1);
    }
}
