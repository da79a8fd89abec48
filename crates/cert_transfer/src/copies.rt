// Copies of shores and price sets.
ghost use Rattle.std.specs.Prelude.{◌≡◌, ◌∷◌, ◌++◌, [], IfOk, OnOk};
ghost use Rattle.cert_transfer.specs.Copies.{MayPlace};

use branch_rules::PriceSet;
use carp_base::{Fail, Memory};
use cert_format::Cert;
use cut_pool::{Shore, ShorePool};
use std::alloc::Global;

// What of a certificate stays.
#[derive(Drop)]
pub(crate) struct Copies {
    pub(crate) shores: ShorePool,
    pub(crate) sets: Vec<PriceSet>,
}

// The shores and the price sets of a certificate.
pub(crate) fn copies_of(alloc: Global, cert: &Cert) -> Result<Copies, Memory>
    ensures shores { IfOk result (λ copies. copies.shores ≡ cert.now.shores) }
    ensures sets { IfOk result (λ copies. copies.sets.items ≡ cert.now.sets.items) }
{
    let shores = copy_pool(alloc, &cert.shores)?;
    let sets = copy_sets(alloc, &cert.sets)?;
    Ok(Copies { shores, sets })
}

// The same shores, in the same order.
fn copy_pool(alloc: Global, pool: &ShorePool) -> Result<ShorePool, Memory>
    ensures { IfOk result (λ copy. copy ≡ pool.now) }
{
    let mut copy = ShorePool::new(alloc);
    for number in 1..pool.len() + 1 {
        place(&mut copy, pool.shore(number).copy(alloc)?)?;
    }
    Ok(copy)
}

// Places a shore last.
fn place(pool: &mut ShorePool, shore: Shore) -> Result<(), Memory>
    requires { MayPlace pool.old shore }
    ensures { OnOk result (pool.new ≡ pool.old ++ shore ∷ []) }
{
    match pool.add(shore) {
        Ok(_) => Ok(()),
        Err(Fail::Memory) => Err(Memory),
        Err(Fail::Refused(_)) => unreachable!(),
    }
}

// The same price sets, in the same order.
fn copy_sets(alloc: Global, sets: &[PriceSet]) -> Result<Vec<PriceSet>, Memory>
    ensures { IfOk result (λ copy. copy.items ≡ sets.now) }
{
    let mut copy = Vec::with_capacity(alloc, sets.len())?;
    for set in sets {
        copy.push(set.copy(alloc)?)?;
    }
    Ok(copy)
}
