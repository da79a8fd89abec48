// A certificate of an instance, carried over to the edited one.
ghost use Rattle.std.specs.Prelude.{◌≡◌, ◌<◌, ◌≤◌, ◌^◌, List, [], length, IfOk};
ghost use Rattle.deadhead_paths.specs.Prices.{costs_of};
ghost use Rattle.branch_rules.specs.declared.node.Node.{Node};
ghost use Rattle.instance_edits.specs.Edits.{AreKnown, edited};
ghost use Rattle.tree_transfer.specs.Raised.{IsRaised};
ghost use Rattle.tree_transfer.specs.Shown.{AreCarried, AreTreeNodes, HasShores, IsGreatestShown, WouldShowSome};
ghost use Rattle.cert_lines.specs.Spelling.{IsSpellable};
ghost use Rattle.cert_format.specs.Certs.{certificate_in};
ghost use Rattle.cert_format.specs.Good.{IsGood};
ghost use Rattle.cert_transfer.specs.Transfer.{IsCarriedOver};

use crate::carry_plan;
use crate::copies::copies_of;
use crate::laws::known_laws;
use branch_rules::{PriceSet, Tree};
use carp_base::{Instance, Memory};
use cert_format::{Cert, counts_of};
use cut_pool::ShorePool;
use deadhead_paths::Distances;
use instance_edits::Edit;
use std::alloc::Global;
use task_tours::{cost_distances, lawful_cost};
use tree_transfer::{carry_tree, greatest_bound};

/// A certificate that is good for the instance `before` edits, carried over to the instance `after` them. It has the
/// numbers of the instance `after`.
///
/// Shores and price sets stay. In the tree a node whose pair is now excluded gives way to its second child, and so does
/// a cut below the lower number of its shore. The bound is the greatest, up to the cost, that the tree shows. It is no
/// lower than before. Each tour keeps its services in their order and direction. It is cut if the next service would
/// pass the capacity, and its parts are joined by least paths. So the cost may rise.
///
/// `before` and `edits` say only for what the certificate was good and what was edited. They are not read. The only
/// error is want of memory.
///
/// With n nodes, m required edges, d decisions on a path, k weights in a set, v vertices and e edges it takes time in
/// proportion to n (m * m + d + (m + d) k) and v (v + e) log v, and to the steps of both plans. It takes memory for the
/// new certificate and for a table of v * v.
pub fn carry(
    alloc: Global,
    before: &Instance,
    edits: &[Edit],
    after: &Instance,
    cert: &Cert,
) -> Result<Cert, Memory>
    requires known { AreKnown before.now [] edits.now }
    requires after { after.now ≡ edited before.now edits.now }
    requires spellable { IsSpellable (certificate_in cert.now) }
    requires good { IsGood before.now (certificate_in cert.now) }
    ensures { IfOk result (λ new. IsCarriedOver after.now (certificate_in cert.now) (certificate_in new)) }
{
    known_laws();
    // The instance and the edits tell only that the certificate was good, and what was edited.
    before.validity();
    let _ = edits;
    let dist = cost_distances(alloc, after)?;
    carry_over(alloc, before, after, &dist, cert)
}

// A certificate of an instance, carried over to one that is raised.
fn carry_over(
    alloc: Global,
    before: &Instance,
    after: &Instance,
    dist: &Distances,
    cert: &Cert,
) -> Result<Cert, Memory>
    requires problem { dist.now.problem ≡ after.now }
    requires prices { dist.now.prices ≡ costs_of after.now }
    requires raised { IsRaised before.now after.now }
    requires spellable { IsSpellable (certificate_in cert.now) }
    requires good { IsGood before.now (certificate_in cert.now) }
    ensures { IfOk result (λ new. IsCarriedOver after.now (certificate_in cert.now) (certificate_in new)) }
{
    known_laws();
    before.validity();
    let counts = counts_of(after);
    let plan = carry_plan(alloc, after, dist, &cert.plan)?;
    let cost = lawful_cost(alloc, after, &plan)? as u64;
    let parts = carry_parts(alloc, after, dist, cert, cost)?;
    Ok(Cert {
        cost,
        bound: parts.bound,
        plan,
        shores: parts.shores,
        sets: parts.sets,
        tree: parts.tree,
        counts: Some(counts),
    })
}

// What is carried over beside the plan.
#[derive(Drop)]
struct Parts {
    shores: ShorePool,
    sets: Vec<PriceSet>,
    tree: Tree,
    bound: u64,
}

// The shores, the price sets and the tree, carried over, and the bound that they show up to a cost.
fn carry_parts(
    alloc: Global,
    inst: &Instance,
    dist: &Distances,
    cert: &Cert,
    cost: u64,
) -> Result<Parts, Memory>
    requires problem { dist.now.problem ≡ inst.now }
    requires prices { dist.now.prices ≡ costs_of inst.now }
    requires nodes { AreTreeNodes inst.now cert.now.shores cert.now.tree.nodes }
    requires shows { (nodes : List Node) → AreCarried inst.now cert.now.shores cert.now.tree.nodes nodes → WouldShowSome (record { problem = inst.now; pool = cert.now.shores; sets = cert.now.sets.items }) nodes }
    requires shores { HasShores (record { problem = inst.now; pool = cert.now.shores; sets = cert.now.sets.items }) }
    requires small { cost < 10 ^ 18 }
    ensures shores { IfOk result (λ parts. parts.shores ≡ cert.now.shores) }
    ensures sets { IfOk result (λ parts. parts.sets.items ≡ cert.now.sets.items) }
    ensures carried { IfOk result (λ parts. AreCarried inst.now cert.now.shores cert.now.tree.nodes parts.tree.nodes) }
    ensures no_more { IfOk result (λ parts. length parts.tree.nodes ≤ length cert.now.tree.nodes) }
    ensures greatest { IfOk result (λ parts. IsGreatestShown (record { problem = inst.now; pool = cert.now.shores; sets = cert.now.sets.items }) cost parts.tree.nodes parts.bound) }
{
    let copies = copies_of(alloc, cert)?;
    let tree = carry_tree(alloc, inst, &copies.shores, &cert.tree)?;
    let bound = greatest_bound(alloc, inst, &copies.shores, &copies.sets, dist, &tree, cost)?;
    Ok(Parts {
        shores: copies.shores,
        sets: copies.sets,
        tree,
        bound,
    })
}
