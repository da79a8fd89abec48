// The heaviest open pair.
ghost use Rattle.std.specs.Prelude.{◌≡◌, ◌+◌, ◌<◌, All, None, length, slice_index, true};
ghost use Rattle.packing_trees.specs.Bundles.{AreBundles, IsChoice, IsPair};
ghost use Rattle.carp_base.specs.Problem.{IsRequired};
ghost use Rattle.fleet_pack.specs.States.{FindsBefore, FindsOneMore, FindsOpen};

use carp_base::Instance;
use packing_trees::{Bundles, PackChoice, is_closed};

/// Two required edges, the lesser one first, whose bundles can share a group, and what these bundles weigh together.
#[derive(Clone, Copy)]
pub(crate) struct OpenPair {
    pub(crate) a: u32,
    pub(crate) b: u32,
    weight: u64,
}

// The weight of the bundle of an edge.
fn weight_of(bundles: &Bundles, e: u32) -> u64
    requires label { e < length bundles.now.labels.items }
    requires weight { slice_index bundles.now.labels.items e < length bundles.now.weights.items }
{
    bundles.weights[bundles.labels[e as usize] as usize]
}

// Whether a weight is above that of an open pair, if there is one.
fn outweighs(weight: u64, found: Option<OpenPair>) -> bool
    ensures { found ≡ None → result ≡ true }
{
    match found {
        Some(open) => weight > open.weight,
        None => true,
    }
}

// The heavier of an open pair and another pair, if that is open.
fn heavier(
    inst: &Instance,
    bundles: &Bundles,
    branch: &[PackChoice],
    a: u32,
    b: u32,
    found: Option<OpenPair>,
) -> Option<OpenPair>
    requires bundles { AreBundles inst.now branch.now bundles.now.labels.items bundles.now.weights.items }
    requires choices { All (IsChoice inst.now) branch.now }
    requires pair { IsPair inst.now a b }
    ensures { FindsOneMore inst.now branch.now a b found result }
{
    let first = weight_of(bundles, a);
    let weight = first.saturating_add(weight_of(bundles, b));
    if !outweighs(weight, found) {
        return found;
    }
    if is_closed(inst, bundles, branch, a, b) {
        return found;
    }
    Some(OpenPair { a, b, weight })
}

// The heavier of an open pair and the open pairs of one edge with greater ones.
fn heaviest_with(
    inst: &Instance,
    bundles: &Bundles,
    branch: &[PackChoice],
    a: u32,
    found: Option<OpenPair>,
) -> Option<OpenPair>
    requires bundles { AreBundles inst.now branch.now bundles.now.labels.items bundles.now.weights.items }
    requires choices { All (IsChoice inst.now) branch.now }
    requires required { IsRequired inst.now a }
    requires before { FindsBefore inst.now branch.now a (a + 1) found }
    ensures { FindsBefore inst.now branch.now a (inst.now.required + 1) result }
{
    let mut found = found;
    let required = inst.required();
    for b in a + 1..required + 1 {
        found = heavier(inst, bundles, branch, a, b, found);
    }
    found
}

/// The heaviest open pair, that of the least edges if some weigh alike. There is none if each pair is closed.
///
/// With m required edges and d choices it takes time in proportion to m * m and to d for each closed pair that is
/// heavier and that only an apart choice closes.
pub(crate) fn heaviest_open(
    inst: &Instance,
    bundles: &Bundles,
    branch: &[PackChoice],
) -> Option<OpenPair>
    requires bundles { AreBundles inst.now branch.now bundles.now.labels.items bundles.now.weights.items }
    requires choices { All (IsChoice inst.now) branch.now }
    ensures { FindsOpen inst.now branch.now result }
{
    let mut found = None;
    for a in 1..inst.required() + 1 {
        found = heaviest_with(inst, bundles, branch, a, found);
    }
    found
}
