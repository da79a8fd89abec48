// A task that a tour can take next, with the numbers by which it is compared.
ghost use Rattle.std.specs.Prelude.{◌≡◌, true, false};
ghost use Rattle.path_scanning.specs.Ties.{TaskNoLater, tie_weight};
ghost use Rattle.path_scanning.specs.Choosing.{IsFirstOf};

use crate::rule::Tie;
use carp_base::Task;

#[derive(Clone, Copy)]
pub(crate) struct Candidate {
    pub(crate) task: Task,
    // The least cost from where the tour stands to the start of the task.
    pub(crate) near: u64,
    // The least cost from the end of the task to the depot.
    pub(crate) home: u64,
    pub(crate) service: u64,
    pub(crate) demand: u64,
}

impl Candidate {
    // What is compared with the same number of another candidate: the lesser one goes first.
    fn weight(&self, other: &Candidate, tie: Tie) -> u128
        ensures { result ≡ tie_weight tie self.now other.now }
    {
        match tie {
            Tie::Farther => u128::from(other.home),
            Tie::Nearer => u128::from(self.home),
            Tie::Cheaper => u128::from(self.service) * u128::from(other.demand),
            Tie::Dearer => u128::from(other.service) * u128::from(self.demand),
        }
    }

    // Whether the task goes before another, or is the same.
    fn is_no_later(&self, other: &Candidate, tie: Tie) -> bool
        ensures yes { result ≡ true → TaskNoLater tie self.now other.now }
        ensures no { result ≡ false → TaskNoLater tie other.now self.now }
    {
        if self.near != other.near {
            return self.near < other.near;
        }
        let (mine, theirs) = (self.weight(other, tie), other.weight(self, tie));
        if mine != theirs {
            return mine < theirs;
        }
        if self.task.edge != other.task.edge {
            return self.task.edge < other.task.edge;
        }
        self.task.forward
    }

    // That of the two candidates that goes first.
    pub(crate) fn first_of(self, other: Candidate, tie: Tie) -> Candidate
        ensures { IsFirstOf tie self other result }
    {
        if self.is_no_later(&other, tie) {
            self
        } else {
            other
        }
    }
}
