// The decisions on the way to a node.
ghost use Rattle.std.specs.Prelude.{◌≡◌, ◌-◌, ◌+◌, ◌<◌, ◌≤◌, ◌++◌, ◌∷◌, [], length, take, pos, neg_ℤ, ◌+ℤ◌, ◌-ℤ◌, ◌*ℤ◌, ◌≤ℤ◌, All, OnOk, OnErr, IfOk, IfErr, IfSome};
ghost use Rattle.branch_rules.specs.Decisions.{lower_of, lowest, highest, rules_of};
ghost use Rattle.branch_rules.specs.Limits.{IsFineDecision, IsPriceNumber, IsShoreOf};
ghost use Rattle.branch_rules.specs.Prices.{signed_sum, value_of, weight_value};
ghost use Rattle.branch_rules.specs.Refusals.{HasUpper, IsWithoutUpper};
ghost use Rattle.branch_rules.specs.Signs.{LacksUpper};
ghost use Rattle.plan_model.specs.Offers.{smaller};

use crate::group::rooms_weigh;
use crate::{Decision, PriceSet, Weight};
use carp_base::{Instance, Memory};
use cut_pool::{ShorePool, need, required_crossings};
use std::alloc::Global;
use std::marker::Model;

/// Why a price set has no value under a branch: a negative weight stands on a shore without an upper number.
#[derive(Clone, Copy, Debug, PartialEq, Eq)]
pub struct NoUpper {
    /// The number of the shore of the first such weight, from 1.
    pub shore: u32,
}

/// The decisions from the root of a tree to one of its nodes. Contracts see their list.
#[derive(Drop)]
pub struct Branch {
    decisions: Vec<Decision>,
}

impl Model for Branch {
    ghost use Rattle.std.specs.Prelude.{List, All};
    ghost use Rattle.decision_chains.specs.declared.decision.Decision.{Decision};
    ghost use Rattle.branch_rules.specs.Limits.{IsFineDecision};

    ghost Value = { List Decision };

    ghost view = { λ b. b.decisions.items };

    ghost invariant = { λ b. All IsFineDecision b.decisions.items };
}

impl Branch {
    /// No decisions.
    pub fn new(alloc: Global) -> Branch
        ensures { result ≡ [] }
    {
        Branch {
            decisions: Vec::new(alloc),
        }
    }

    /// The same decisions again. The only error is want of memory.
    pub fn copy(&self, alloc: Global) -> Result<Branch, Memory>
        ensures { IfOk result (λ copy. copy ≡ self.now) }
    {
        Ok(Branch {
            decisions: Vec::from_slice(alloc, &self.decisions)?,
        })
    }

    /// Adds a decision at the end. The number of a cut is at most 1,000,000. The only error is want of memory, and then
    /// the branch stays as it was.
    pub fn push(&mut self, d: Decision) -> Result<(), Memory>
        requires { IsFineDecision d }
        ensures ok { OnOk result (self.new ≡ self.old ++ d ∷ []) }
        ensures err { OnErr result (self.new ≡ self.old) }
    {
        self.decisions.push(d)?;
        Ok(())
    }

    /// Takes the last decision away. It takes no memory.
    pub fn pop(&mut self)
        requires { 0 < length self.old }
        ensures { self.new ≡ take (length self.old - 1) self.old }
    {
        self.decisions.pop();
    }

    /// The number of decisions.
    pub fn len(&self) -> usize
        ensures value { result ≡ length self.now }
        ensures fine { All IsFineDecision self.now }
    {
        self.decisions.len()
    }

    /// The decisions in order.
    pub fn decisions(&self) -> &[Decision]
        ensures { result.now ≡ self.now }
    {
        &self.decisions
    }

    /// The lower number of a shore: the least number of the parity of the required edges over the shore that is at
    /// least the shore's need, and at least the `k + 1` of each of its `High` decisions. Each lawful plan that meets
    /// the decisions keeps it ([`numbers_are_kept`](crate::numbers_are_kept)).
    ///
    /// It takes no memory, and time in proportion to the numbers of required edges and of decisions.
    pub fn lower(&self, inst: &Instance, pool: &ShorePool, shore: u32) -> u64
        requires { IsShoreOf inst.now pool.now shore }
        ensures value { result ≡ lower_of inst.now pool.now self.now shore }
        ensures small { result ≤ 36000001 }
    {
        let set = pool.shore(shore);
        let least = need(inst, set).max(highest_of(&self.decisions, shore));
        least + (least % 2 + required_crossings(inst, set) % 2) % 2
    }

    /// The upper number of a shore: the least `k` of its `Low` decisions, or `None` if it has none. Each lawful plan
    /// that meets the decisions keeps it ([`numbers_are_kept`](crate::numbers_are_kept)).
    ///
    /// It takes no memory, and time in proportion to the number of decisions.
    pub fn upper(&self, shore: u32) -> Option<u64>
        ensures value { result ≡ lowest shore self.now }
        ensures small { IfSome result (λ k. k ≤ 1000000) }
    {
        lowest_of(&self.decisions, shore)
    }

    /// The value of a price set under the decisions, in parts of its denominator. It is the sum of the prices, plus
    /// each positive weight times the lower number of its shore, less the size of each negative weight times the upper
    /// number, less each positive weight on a group times the room of the group, plus the size of each negative weight
    /// on a group.
    ///
    /// The error is [`NoUpper`], exactly if the shore of a negative weight has no upper number. It takes no memory.
    /// With m required edges, d decisions, k weights on shores and groups of n edges together it takes time in
    /// proportion to (m + d) k + n.
    pub fn value_at(
        &self,
        inst: &Instance,
        pool: &ShorePool,
        set: &PriceSet,
    ) -> Result<i128, NoUpper>
        requires { All (λ w. IsShoreOf inst.now pool.now w.shore) set.now.weights }
        ensures value { IfOk result (λ value. value ≡ value_of (rules_of inst.now pool.now self.now) set.now) }
        ensures accepted { OnOk result (All (HasUpper self.now) set.now.weights) }
        ensures refused { IfErr result (IsWithoutUpper self.now set.now) }
    {
        let prices = sum_of(set.prices());
        let mut sum: i128 = 0;
        for weight in set.shore_weights() {
            sum += self.weight_value(inst, pool, weight)?;
        }
        Ok(net(prices, sum, rooms_weigh(inst, set.groups())))
    }

    // What a weight adds to the value of a price set.
    fn weight_value(
        &self,
        inst: &Instance,
        pool: &ShorePool,
        weight: &Weight,
    ) -> Result<i128, NoUpper>
        requires shore { IsShoreOf inst.now pool.now weight.now.shore }
        requires within { IsPriceNumber weight.now.weight }
        ensures value { IfOk result (λ value. value ≡ weight_value (rules_of inst.now pool.now self.now) weight.now) }
        ensures low { IfOk result (λ value. neg_ℤ (pos 40000000000000000000000) ≤ℤ value) }
        ensures high { IfOk result (λ value. value ≤ℤ pos 40000000000000000000000) }
        ensures accepted { OnOk result (HasUpper self.now weight.now) }
        ensures refused { IfErr result (LacksUpper self.now weight.now) }
    {
        let shore = weight.shore;
        if weight.weight < 0 {
            let upper = self.upper(shore).ok_or(NoUpper { shore })?;
            Ok(times(weight, upper))
        } else {
            Ok(times(weight, self.lower(inst, pool, shore)))
        }
    }
}

// What prices and weights on shores come to, less the most that bonds can weigh.
fn net(prices: i128, weights: i128, rooms: i128) -> i128
    requires prices_low { neg_ℤ (pos 600000000000000000) ≤ℤ prices }
    requires prices_high { prices ≤ℤ pos 600000000000000000 }
    requires weights_low { neg_ℤ (pos 80000000000000000000000000) ≤ℤ weights }
    requires weights_high { weights ≤ℤ pos 80000000000000000000000000 }
    requires rooms_low { neg_ℤ (pos 1200000000000000000000) ≤ℤ rooms }
    requires rooms_high { rooms ≤ℤ pos 1200000000000000000000 }
    ensures value { result ≡ (prices +ℤ weights) -ℤ rooms }
    ensures low { neg_ℤ (pos 100000000000000000000000000) ≤ℤ result }
    ensures high { result ≤ℤ pos 100000000000000000000000000 }
{
    prices + weights - rooms
}

// The sum of prices.
fn sum_of(prices: &[i64]) -> i128
    requires few { length prices.now ≤ 600 }
    requires within { All IsPriceNumber prices.now }
    ensures value { result ≡ signed_sum (λ price. price) prices.now }
    ensures low { neg_ℤ (pos 600000000000000000) ≤ℤ result }
    ensures high { result ≤ℤ pos 600000000000000000 }
{
    let mut sum: i128 = 0;
    for price in prices {
        sum += i128::from(*price);
    }
    sum
}

// A weight times a number.
fn times(weight: &Weight, number: u64) -> i128
    requires within { IsPriceNumber weight.now.weight }
    requires small { number ≤ 36000001 }
    ensures value { result ≡ weight.now.weight *ℤ pos number }
    ensures low { neg_ℤ (pos 40000000000000000000000) ≤ℤ result }
    ensures high { result ≤ℤ pos 40000000000000000000000 }
{
    i128::from(weight.weight) * i128::from(number)
}

// The greatest `k + 1` of the `High` decisions on a shore.
fn highest_of(decisions: &[Decision], shore: u32) -> u64
    requires { All IsFineDecision decisions.now }
    ensures value { result ≡ highest shore decisions.now }
    ensures small { result ≤ 1000001 }
{
    let mut most: u64 = 0;
    for decision in decisions {
        most = most.max(high_of(decision, shore));
    }
    most
}

// The least `k` of the `Low` decisions on a shore.
fn lowest_of(decisions: &[Decision], shore: u32) -> Option<u64>
    requires { All IsFineDecision decisions.now }
    ensures value { result ≡ lowest shore decisions.now }
    ensures small { IfSome result (λ k. k ≤ 1000000) }
{
    let mut least = None;
    for decision in decisions {
        least = lesser(least, low_of(decision, shore));
    }
    least
}

// The smaller of two numbers. `None` is no number.
fn lesser(a: Option<u64>, b: Option<u64>) -> Option<u64>
    requires a { IfSome a (λ k. k ≤ 1000000) }
    requires b { IfSome b (λ k. k ≤ 1000000) }
    ensures value { result ≡ smaller a b }
    ensures small { IfSome result (λ k. k ≤ 1000000) }
{
    match (a, b) {
        (Some(x), Some(y)) => Some(x.min(y)),
        (None, other) | (other, None) => other,
    }
}

// The `k + 1` of a `High` decision on the shore.
fn high_of(decision: &Decision, shore: u32) -> u64
    requires { IsFineDecision decision.now }
    ensures value { result ≡ highest shore (decision.now ∷ []) }
    ensures small { result ≤ 1000001 }
{
    match *decision {
        Decision::High { shore: s, k } if s == shore => k + 1,
        _ => 0,
    }
}

// The `k` of a `Low` decision on the shore.
fn low_of(decision: &Decision, shore: u32) -> Option<u64>
    requires { IsFineDecision decision.now }
    ensures value { result ≡ lowest shore (decision.now ∷ []) }
    ensures small { IfSome result (λ k. k ≤ 1000000) }
{
    match *decision {
        Decision::Low { shore: s, k } if s == shore => Some(k),
        _ => None,
    }
}
