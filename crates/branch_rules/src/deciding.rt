// What a branch excludes, determines and settles.
ghost use Rattle.std.specs.Prelude.{◌≡◌, ◌-◌, ◌≤◌, ◌↔◌, All, IfOk, IsTrue, length, false};
ghost use Rattle.decision_chains.specs.ChainTables.{IsChainTable};
ghost use Rattle.branch_rules.specs.Crossings.{IsCrossed, IsCrossing, IsUncrossed};
ghost use Rattle.decision_chains.specs.Exclusions.{Excluded, IsDetermined, PermitsUnexcluded};
ghost use Rattle.branch_rules.specs.Decisions.{IsFixed, IsVoid, cuts_of};
ghost use Rattle.decision_chains.specs.FixedValue.{HasFixedValue};
ghost use Rattle.decision_chains.specs.Pairs.{ArePairsIn};
ghost use Rattle.branch_rules.specs.Limits.{AreShoresIn, HasShoreOf, IsNodeIn, IsShoreOf};
ghost use Rattle.branch_rules.specs.Trees.{IsLeanNode};
ghost use Rattle.branch_rules.specs.declared.node.Node.TheVariants.{Cut};
ghost use Rattle.carp_base.specs.Problem.{IsRequired};
ghost use Rattle.deadhead_paths.specs.Prices.{costs_of};
ghost use Rattle.plan_model.specs.Plans.{IsLawful, plan_cost, steps_of};

use crate::{Branch, Decision, Node};
use carp_base::{Allowed, Instance, Memory};
use cut_pool::ShorePool;
use deadhead_paths::Distances;
use decision_chains::{Chains, plan};
use plan_model::Plan;
use std::alloc::Global;

// The most decisions on shores that a path of a tree may have.
const MOST_CUTS: usize = 4;

impl Branch {
    /// Which pairs of required edges may be neighbours: exactly those that are not excluded. A pair is excluded if
    ///
    /// - the two are one edge;
    /// - a decision says no to it;
    /// - one of them has two yes neighbours besides the other;
    /// - they are the two ends of one chain and no yes pair;
    /// - or their two chains together are above the capacity.
    ///
    /// The edges of such a pair are no neighbours in any lawful plan that meets the branch
    /// ([`excluded_pairs_are_apart`](crate::excluded_pairs_are_apart)).
    ///
    /// With m required edges and d decisions it takes time in proportion to m * m + d, or m * (m + d) if the branch is
    /// void, and memory in proportion to m * m.
    pub fn allowed(&self, alloc: Global, inst: &Instance) -> Result<Allowed, Memory>
        requires { ArePairsIn inst.now self.now }
        ensures { IfOk result (PermitsUnexcluded inst.now self.now) }
    {
        let chains = Chains::of(alloc, inst, self.decisions())?;
        chains.allowed(alloc)
    }

    /// Whether a pair of required edges is excluded: as [`allowed`](Branch::allowed) says of all pairs.
    ///
    /// It takes time as `allowed` does, and memory in proportion to the required edges.
    pub fn excluded(&self, alloc: Global, inst: &Instance, a: u32, b: u32) -> Result<bool, Memory>
        requires pairs { ArePairsIn inst.now self.now }
        requires a { IsRequired inst.now a }
        requires b { IsRequired inst.now b }
        ensures { IfOk result (λ out. IsTrue out ↔ Excluded inst.now self.now a b) }
    {
        let chains = Chains::of(alloc, inst, self.decisions())?;
        Ok(chains.excludes(a, b))
    }

    /// Whether a pair of required edges is yes or excluded.
    ///
    /// It takes time as `allowed` does, and memory in proportion to the required edges.
    pub fn determined(&self, alloc: Global, inst: &Instance, a: u32, b: u32) -> Result<bool, Memory>
        requires pairs { ArePairsIn inst.now self.now }
        requires a { IsRequired inst.now a }
        requires b { IsRequired inst.now b }
        ensures { IfOk result (λ settled. IsTrue settled ↔ IsDetermined inst.now self.now a b) }
    {
        let chains = Chains::of(alloc, inst, self.decisions())?;
        Ok(chains.determines(a, b))
    }

    /// Whether a node may stand here in a lean tree. A pair may if it is not determined. A cut may if it is at least
    /// the lower number of its shore and below the upper number, if there is one, and fewer than four decisions so far
    /// are on shores. A leaf may always stand here.
    ///
    /// It takes time as `determined` does.
    pub fn lean(
        &self,
        alloc: Global,
        inst: &Instance,
        pool: &ShorePool,
        node: &Node,
    ) -> Result<bool, Memory>
        requires pairs { ArePairsIn inst.now self.now }
        requires node { IsNodeIn inst.now pool.now node.now }
        ensures { IfOk result (λ fits. IsTrue fits ↔ IsLeanNode inst.now pool.now self.now (4 - cuts_of self.now) node.now) }
    {
        match *node {
            Node::Pair { a, b } => {
                let settled = self.determined(alloc, inst, a, b)?;
                Ok(!settled)
            }
            Node::Cut { shore, k } => Ok(self.may_cut(inst, pool, shore, k)),
            Node::Price { .. } => Ok(true),
            Node::Void => Ok(true),
            Node::Fixed => Ok(true),
        }
    }

    /// Whether the branch is void: an edge has three yes neighbours or more, yes pairs form a cycle, the demand of a
    /// chain is above the capacity, or the upper number of a shore is below its lower number. No lawful plan meets a
    /// void branch ([`void_is_met_by_none`](crate::void_is_met_by_none)).
    ///
    /// It takes time as `allowed` does, and with m required edges and d decisions, c of them on shores, in proportion
    /// to c * (m + d) at most.
    pub fn void(&self, alloc: Global, inst: &Instance, pool: &ShorePool) -> Result<bool, Memory>
        requires pairs { ArePairsIn inst.now self.now }
        requires shores { AreShoresIn inst.now pool.now self.now }
        ensures { IfOk result (λ void. IsTrue void ↔ IsVoid inst.now pool.now self.now) }
    {
        let chains = Chains::of(alloc, inst, self.decisions())?;
        Ok(self.is_void_by(&chains, inst, pool))
    }

    /// Whether the branch is fixed: it is not void, and each pair of required edges is determined.
    ///
    /// It takes time as `allowed` and `void` do.
    pub fn fixed(&self, alloc: Global, inst: &Instance, pool: &ShorePool) -> Result<bool, Memory>
        requires pairs { ArePairsIn inst.now self.now }
        requires shores { AreShoresIn inst.now pool.now self.now }
        ensures { IfOk result (λ fixed. IsTrue fixed ↔ IsFixed inst.now pool.now self.now) }
    {
        let chains = Chains::of(alloc, inst, self.decisions())?;
        if self.is_void_by(&chains, inst, pool) {
            return Ok(false);
        }
        let allowed = chains.allowed(alloc)?;
        Ok(chains.determines_all(&allowed))
    }

    /// A plan of the cheapest tour along each chain, for a fixed branch. The distances are those by cost.
    ///
    /// It is lawful and costs the fixed value of the branch. No lawful plan that meets the branch costs less
    /// ([`fixed_value_bounds`](crate::fixed_value_bounds)). It has at most one tour for each required edge, and at most
    /// 2,000,000 steps.
    ///
    /// With m required edges and d decisions it takes time in proportion to m * m + d and to the steps that it writes.
    pub fn fixed_plan(
        &self,
        alloc: Global,
        inst: &Instance,
        pool: &ShorePool,
        dist: &Distances,
    ) -> Result<Plan, Memory>
        requires pairs { ArePairsIn inst.now self.now }
        requires fixed { IsFixed inst.now pool.now self.now }
        requires problem { dist.now.problem ≡ inst.now }
        requires prices { dist.now.prices ≡ costs_of inst.now }
        ensures lawful { IfOk result (IsLawful inst.now) }
        ensures value { IfOk result (λ plan. HasFixedValue inst.now self.now (plan_cost inst.now plan)) }
        ensures few_tours { IfOk result (λ plan. length plan ≤ inst.now.required) }
        ensures few_steps { IfOk result (λ plan. length (steps_of plan) ≤ 2000000) }
    {
        // The pool tells only that the branch is fixed.
        let _ = pool;
        let chains = Chains::of(alloc, inst, self.decisions())?;
        let plan = plan(alloc, &chains, dist)?;
        Ok(plan)
    }

    // The number of decisions on shores.
    fn cuts(&self) -> usize
        ensures { result ≡ cuts_of self.now }
    {
        count_cuts(self.decisions())
    }

    // Whether a cut may be made here.
    fn may_cut(&self, inst: &Instance, pool: &ShorePool, shore: u32, k: u64) -> bool
        requires { IsShoreOf inst.now pool.now shore }
        ensures { IsTrue result ↔ IsLeanNode inst.now pool.now self.now (4 - cuts_of self.now) (Cut shore k) }
    {
        self.cuts() < MOST_CUTS
            && self.lower(inst, pool, shore) <= k
            && self.upper(shore).is_none_or(|upper| k < upper)
    }

    // Whether the branch is void, whose chains these are.
    fn is_void_by(&self, chains: &Chains<'_>, inst: &Instance, pool: &ShorePool) -> bool
        requires table { IsChainTable chains.now }
        requires inst { chains.now.inst.now ≡ inst.now }
        requires decisions { chains.now.decisions.now ≡ self.now }
        requires shores { AreShoresIn inst.now pool.now self.now }
        ensures { IsTrue result ↔ IsVoid inst.now pool.now self.now }
    {
        if chains.tangled || chains.is_overloaded() {
            return true;
        }
        self.is_crossed(inst, pool)
    }

    // Whether the upper number of a shore is below its lower number.
    fn is_crossed(&self, inst: &Instance, pool: &ShorePool) -> bool
        requires { AreShoresIn inst.now pool.now self.now }
        ensures yes { IsTrue result → IsCrossed inst.now pool.now self.now }
        ensures no { result ≡ false → All (IsUncrossed inst.now pool.now self.now) self.now }
    {
        for decision in self.decisions() {
            if self.crosses(inst, pool, decision) {
                return true;
            }
        }
        false
    }

    // Whether the decision is a low one whose number is below the lower number of its shore.
    fn crosses(&self, inst: &Instance, pool: &ShorePool, decision: &Decision) -> bool
        requires { HasShoreOf inst.now pool.now decision.now }
        ensures yes { IsTrue result → IsCrossing inst.now pool.now self.now decision.now }
        ensures no { result ≡ false → IsUncrossed inst.now pool.now self.now decision.now }
    {
        match *decision {
            Decision::Low { shore, k } => k < self.lower(inst, pool, shore),
            _ => false,
        }
    }
}

// The number of decisions on shores.
fn count_cuts(decisions: &[Decision]) -> usize
    ensures { result ≡ cuts_of decisions.now }
{
    decisions
        .iter()
        .filter(|decision| matches!(decision, Decision::Low { .. } | Decision::High { .. }))
        .count()
}
