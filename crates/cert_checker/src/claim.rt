// What is checked against an instance.
ghost use Rattle.std.specs.Prelude.{◌≡◌};
ghost use Rattle.branch_rules.specs.Trees.{set_at};
ghost use Rattle.cert_checker.specs.Claims.{IsSetNumber, support_in};

use branch_rules::PriceSet;
use carp_base::Instance;
use cert_format::Counts;
use cut_pool::ShorePool;
use plan_model::Plan;

/// A certificate without its nodes, and the instance against which it is checked.
#[derive(Clone, Copy)]
pub(crate) struct Claim<'a> {
    pub(crate) inst: &'a Instance,
    pub(crate) counts: Option<Counts>,
    pub(crate) cost: u64,
    pub(crate) bound: u64,
    pub(crate) plan: &'a Plan,
    pub(crate) shores: &'a ShorePool,
    pub(crate) sets: &'a [PriceSet],
}

impl Claim<'_> {
    /// The price set of a number from 1.
    pub(crate) fn set(&self, number: u32) -> &PriceSet
        requires { IsSetNumber (support_in self.now) number }
        ensures { result.now ≡ set_at (support_in self.now) number }
    {
        &self.sets[number as usize - 1]
    }
}
