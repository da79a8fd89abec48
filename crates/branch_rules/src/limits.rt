// What the cuts of a branch may be on.
ghost use Rattle.std.specs.Prelude.{◌↔◌, IsTrue};
ghost use Rattle.branch_rules.specs.Limits.{IsShoreOf};

use carp_base::Instance;
use cut_pool::ShorePool;

/// The greatest number `k` of a cut.
pub const MOST_K: u64 = 1_000_000;

/// Whether a number is that of a shore in the pool that belongs to the instance. It takes constant time.
pub fn is_shore_of(inst: &Instance, pool: &ShorePool, number: u32) -> bool
    ensures { IsTrue result ↔ IsShoreOf inst.now pool.now number }
{
    1 <= number && number <= pool.len() && pool.shore(number).belongs(inst)
}
