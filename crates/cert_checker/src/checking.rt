// A whole certificate.
ghost use Rattle.std.specs.Prelude.{◌≡◌, [], All, IfOk, OnOk};
ghost use Rattle.cert_format.specs.Certs.{certificate_in};
ghost use Rattle.cert_lines.specs.Spelling.{IsSpellable};
ghost use Rattle.cert_checker.specs.Claims.{IsBacked, IsNodeRead, claimed, support_in};
ghost use Rattle.cert_checker.specs.Reasons.{IsAnswer, Proves};
ghost use Rattle.cert_checker.specs.Walks.{Fills, HasWalked, IsChecker, TreeSays};

use crate::checker::Checker;
use crate::claim::Claim;
use crate::head::head_reason;
use crate::{Answer, Reason};
use branch_rules::Tree;
use carp_base::{Instance, Memory};
use cert_format::{Cert, good_is_proof};
use cert_lines::spellable_is_fine;
use std::alloc::Global;

/// Whether a certificate that can be spelled is good, or the first reason why it is not.
///
/// `Accepted` is a proof: the plan is lawful and costs what is stated, and no lawful plan costs less than the bound.
/// Otherwise the answer is the first reason in this order:
///
/// - the numbers of the instance, by place;
/// - the plan, and then its cost;
/// - the shores in order;
/// - the numbers of prices, by set;
/// - the prices of deadheads, by set and edge;
/// - the nodes in preorder.
///
/// A node takes the time of its tests (see [`Branch`](branch_rules::Branch)). A price leaf also takes that of one
/// filling of the table, unless the price leaf before it has the same set and the same excluded pairs. It takes that of
/// the distances between all vertices, unless the price leaf before it has the same set. Beside the certificate, memory
/// does not grow with the number of nodes. The only error is want of memory.
pub fn check(alloc: Global, inst: &Instance, cert: &Cert) -> Result<Answer, Memory>
    requires { IsSpellable (certificate_in cert.now) }
    ensures answer { IfOk result (IsAnswer inst.now (certificate_in cert.now)) }
    ensures proof { IfOk result (Proves inst.now (certificate_in cert.now)) }
{
    let claim = Claim {
        inst,
        counts: cert.counts,
        cost: cert.cost,
        bound: cert.bound,
        plan: &cert.plan,
        shores: &cert.shores,
        sets: &cert.sets,
    };
    answer(alloc, &claim, &cert.tree)
}

// Whether the certificate of a claim and the nodes of a tree is good.
fn answer(alloc: Global, claim: &Claim<'_>, tree: &Tree) -> Result<Answer, Memory>
    requires { IsSpellable (claimed claim.now tree.now.nodes) }
    ensures answer { IfOk result (IsAnswer claim.now.inst.now (claimed claim.now tree.now.nodes)) }
    ensures proof { IfOk result (Proves claim.now.inst.now (claimed claim.now tree.now.nodes)) }
{
    good_is_proof();
    spellable_is_fine();
    claim.inst.validity();
    if let Some(reason) = head_reason(alloc, claim)? {
        return Ok(Answer::Rejected(reason));
    }
    match tree_reason(alloc, claim, tree)? {
        Some(reason) => Ok(Answer::Rejected(reason)),
        None => Ok(Answer::Accepted),
    }
}

// The reason of the first node that is not as it should be.
fn tree_reason(alloc: Global, claim: &Claim<'_>, tree: &Tree) -> Result<Option<Reason>, Memory>
    requires backed { IsBacked (support_in claim.now) }
    requires read { All (IsNodeRead (support_in claim.now)) tree.now.nodes }
    requires whole { Fills tree.now.nodes 1 }
    ensures { IfOk result (TreeSays (support_in claim.now) claim.now.bound tree.now.nodes) }
{
    let mut checker = Checker::new(alloc, claim)?;
    take_all(alloc, claim, &mut checker, tree)?;
    Ok(checker.reason)
}

// Takes each node of a tree. None was taken before.
fn take_all(
    alloc: Global,
    claim: &Claim<'_>,
    checker: &mut Checker,
    tree: &Tree,
) -> Result<(), Memory>
    requires backed { IsBacked (support_in claim.now) }
    requires read { All (IsNodeRead (support_in claim.now)) tree.now.nodes }
    requires whole { Fills tree.now.nodes 1 }
    requires checker { IsChecker (support_in claim.now) checker.old }
    requires count { checker.old.taken ≡ 0 }
    requires walked { HasWalked (support_in claim.now) claim.now.bound checker.old [] }
    ensures { OnOk result (TreeSays (support_in claim.now) claim.now.bound tree.now.nodes checker.new.reason) }
{
    for place in 0..tree.len() {
        checker.take(alloc, claim, &tree.node(place))?;
    }
    Ok(())
}
