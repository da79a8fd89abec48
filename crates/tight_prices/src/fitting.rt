// Whether a price set fits.
ghost use Rattle.std.specs.Prelude.{◌≡◌, ◌↔◌, All, IfOk, IsTrue, length, OnOk};
ghost use Rattle.branch_rules.specs.Laws.{FitsBranch};
ghost use Rattle.branch_rules.specs.Limits.{IsShoreOf};
ghost use Rattle.branch_rules.specs.Refusals.{HasUpper, HasYes, NoneTooHeavy};
ghost use Rattle.decision_chains.specs.Pairs.{ArePairsIn};
ghost use Rattle.route_pricing.specs.Tables.{IsRoom};
ghost use Rattle.tight_prices.specs.Fillings.{IsFilledFor};
ghost use Rattle.tight_prices.specs.declared.probe.Probe.TheVariants.{Pays};

use crate::probe::{Probe, Setting, try_set};
use branch_rules::{Branch, PriceSet};
use carp_base::{Instance, Memory};
use cut_pool::ShorePool;
use road_network::Network;
use route_pricing::Table;
use std::alloc::Global;

/// Whether a price set fits under a branch. It does if no deadhead price is negative, each shore of negative weight has
/// an upper number, each group of negative weight is a pair that the branch says yes to, and each relaxed tour that the
/// branch leaves free pays for its services and bonds. Afterwards the table is filled for the set and the branch, if no
/// deadhead price is negative.
///
/// It asks for the network of the instance, a table that was made for it, a branch whose pairs are of required edges, a
/// price for each required edge, and weights on shores of the pool that belong to the instance. The only error is want
/// of memory. With m required edges and d decisions it takes time in proportion to m * m + d, the time of the deadhead
/// prices and of the distances by them, and one fill of the table.
pub fn fits(
    alloc: Global,
    inst: &Instance,
    net: &Network,
    table: &mut Table,
    pool: &ShorePool,
    branch: &Branch,
    set: &PriceSet,
) -> Result<bool, Memory>
    requires net { net.now ≡ inst.now }
    requires room { IsRoom inst.now table.old }
    requires pairs { ArePairsIn inst.now branch.now }
    requires shores { All (λ w. IsShoreOf inst.now pool.now w.shore) set.now.weights }
    requires one_each { length set.now.services ≡ inst.now.required }
    ensures answer { IfOk result (λ answer. IsTrue answer ↔ FitsBranch inst.now pool.now branch.now set.now) }
    ensures filled { OnOk result (NoneTooHeavy inst.now pool.now set.now → IsFilledFor inst.now pool.now branch.now set.now table.new) }
    ensures room { IsRoom inst.now table.new }
{
    inst.validity();
    let allowed = branch.allowed(alloc, inst)?;
    let setting = Setting {
        inst,
        net,
        pool,
        branch,
        allowed: &allowed,
    };
    let found = try_set(alloc, &setting, table, set)?;
    let uppers = has_uppers(inst, pool, branch, set);
    let yes = has_yes(branch, set);
    Ok(all_hold(uppers, yes, found))
}

// Whether each shore of negative weight has an upper number.
fn has_uppers(inst: &Instance, pool: &ShorePool, branch: &Branch, set: &PriceSet) -> bool
    requires { All (λ w. IsShoreOf inst.now pool.now w.shore) set.now.weights }
    ensures { IsTrue result ↔ All (HasUpper branch.now) set.now.weights }
{
    branch.value_at(inst, pool, set).is_ok()
}

// Whether the branch says yes to the pair of each group of negative weight.
fn has_yes(branch: &Branch, set: &PriceSet) -> bool
    ensures { IsTrue result ↔ All (HasYes branch.now) set.now.groups }
{
    branch.check_yes(set).is_ok()
}

// Whether all three are so: each shore has its upper number and each pair its yes, and each tour was found to pay.
fn all_hold(uppers: bool, yes: bool, found: Probe) -> bool
    ensures yes { IsTrue result → IsTrue uppers × IsTrue yes × (found ≡ Pays) }
    ensures no { IsTrue uppers → IsTrue yes → found ≡ Pays → IsTrue result }
{
    match found {
        Probe::Pays => uppers && yes,
        Probe::Lacks(_) | Probe::TooHeavy => false,
    }
}
