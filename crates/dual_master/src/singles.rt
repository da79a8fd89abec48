// The shores of one vertex.
ghost use Rattle.std.specs.Prelude.{◌≡◌, All, OnErr, OnOk};
ghost use Rattle.carp_base.specs.Problem.{IsVertex};
ghost use Rattle.cut_pool.specs.Shores.{Belongs};
ghost use Rattle.dual_master.specs.Singles.{HasSingles, IsTried};

use carp_base::{Fail, Instance, Memory};
use cut_pool::{MOST_SHORES, PoolFull, Shore, ShorePool, need};
use std::alloc::Global;

// Places the shore of each vertex but the depot over which some deadhead is needed, in order, while there is room.
pub(crate) fn place_singles(
    alloc: Global,
    inst: &Instance,
    pool: &mut ShorePool,
) -> Result<(), Memory>
    requires belong { All (Belongs inst.now) pool.old }
    ensures singles { OnOk result (HasSingles inst.now pool.old inst.now.vertices pool.new) }
    ensures belong { All (Belongs inst.now) pool.new }
{
    for v in 1..inst.vertices() + 1 {
        place_single(alloc, inst, pool, v)?;
    }
    Ok(())
}

// Places the shore of one vertex, where it is wanted.
fn place_single(alloc: Global, inst: &Instance, pool: &mut ShorePool, v: u32) -> Result<(), Memory>
    requires vertex { IsVertex inst.now v }
    ensures ok { OnOk result (IsTried inst.now pool.old v pool.new) }
    ensures err { OnErr result (pool.new ≡ pool.old) }
{
    if v == inst.depot() || pool.len() as usize == MOST_SHORES {
        return Ok(());
    }
    let shore = Shore::from_list(alloc, &[v])?;
    if need(inst, &shore) == 0 {
        return Ok(());
    }
    match pool.add(shore) {
        Ok(_) => Ok(()),
        Err(Fail::Memory) => Err(Memory),
        Err(Fail::Refused(PoolFull)) => unreachable!(),
    }
}
