// The certificate of what a search found.
ghost use Rattle.std.specs.Prelude.{◌≡◌, ◌≤◌, All, IfOk, length};
ghost use Rattle.cut_pool.specs.Pools.{AreDifferent};
ghost use Rattle.cut_pool.specs.Shores.{IsShore};
ghost use Rattle.branch_rules.specs.Limits.{IsPriceSet};
ghost use Rattle.branch_tree.specs.Founds.{IsFound, findings_of};
ghost use Rattle.cert_format.specs.Certs.{certificate_in};
ghost use Rattle.carp_engine.specs.Certifying.{IsCertified};

use crate::Solved;
use branch_rules::PriceSet;
use branch_tree::Found;
use carp_base::{Instance, Memory};
use cert_format::{Cert, counts_of};
use cut_pool::ShorePool;
use std::alloc::Global;
use task_tours::{lawful_cost, short_plans_cost_little};

// The certificate of what was found, and the turns of its tree.
pub(crate) fn certify(
    alloc: Global,
    inst: &Instance,
    found: Found,
    turns: u64,
) -> Result<Solved, Memory>
    requires { IsFound inst.now (findings_of found) turns }
    ensures certified { IfOk result (λ solved. IsCertified inst.now (findings_of found) (certificate_in solved.cert)) }
    ensures turns { IfOk result (λ solved. solved.turns ≡ turns) }
{
    short_plans_cost_little();
    let counts = Some(counts_of(inst));
    let cost = lawful_cost(alloc, inst, &found.plan)? as u64;
    look_at_shores(&found.shores);
    look_at_sets(&found.sets);
    Ok(Solved {
        cert: Cert {
            cost,
            bound: found.bound,
            plan: found.plan,
            shores: found.shores,
            sets: found.sets,
            tree: found.tree,
            counts,
        },
        turns,
    })
}

// What is said of a pool and of each of its shores when they are read.
fn look_at_shores(pool: &ShorePool)
    ensures few { length pool.now ≤ 2000 }
    ensures different { AreDifferent pool.now }
    ensures shores { All IsShore pool.now }
{
    for number in 1..pool.len() + 1 {
        pool.shore(number).len();
    }
}

// What is said of price sets when they are read.
fn look_at_sets(sets: &[PriceSet])
    ensures { All IsPriceSet sets.now }
{
    for set in sets {
        set.unit();
    }
}
