// What the chains exclude.
ghost use Rattle.std.specs.Prelude.{◌≡◌, ℕ, ◌<◌, ◌≤◌, ◌↔◌, ◌||◌, All, IfOk, IsTrue, MatchBool, false, true};
ghost use Rattle.std.specs.List.{list_any};
ghost use Rattle.decision_chains.specs.ChainTables.{IsChainTable, IsNoOut, IsOut, TakesExcluded, is_barred};
ghost use Rattle.decision_chains.specs.Exclusions.{Excluded, IsDetermined, IsHeavy, IsNo, PermitsUnexcluded, says_no};
ghost use Rattle.decision_chains.specs.Pairs.{HasPairWithin};
ghost use Rattle.decision_chains.specs.declared.decision.Decision.TheVariants.{No};
ghost use Rattle.carp_base.specs.Problem.{IsRequired};

use crate::Decision;
use crate::chains::Chains;
use carp_base::{Allowed, Memory};
use std::alloc::Global;

impl Chains<'_> {
    /// Whether the demand of a chain is above the capacity. It takes no memory, and time in proportion to the required
    /// edges.
    pub fn is_overloaded(&self) -> bool
        requires { IsChainTable self.now }
        ensures yes { IsTrue result → (e : ℕ) × IsHeavy self.now.inst.now self.now.decisions.now e e }
        ensures no { result ≡ false → (e : ℕ) → ¬ (IsHeavy self.now.inst.now self.now.decisions.now e e) }
    {
        for edge in 1..self.inst.required() + 1 {
            if self.load(edge) > self.inst.capacity() {
                return true;
            }
        }
        false
    }

    // Takes a pair out of a relation if it is barred.
    fn take_out_pair(&self, allowed: &mut Allowed, a: u32, b: u32)
        requires table { IsChainTable self.now }
        requires on { allowed.old.size ≡ self.now.inst.now.required }
        requires a { IsRequired self.now.inst.now a }
        requires b { IsRequired self.now.inst.now b }
        ensures takes { TakesExcluded self.now.inst.now self.now.decisions.now allowed.old allowed.new }
        ensures out { is_barred self.now a b ≡ true → IsOut allowed.new a b }
    {
        if self.bars(a, b) {
            allowed.exclude(a, b);
        }
    }

    // Takes the barred pairs of an edge with the edges before it out of a relation.
    fn take_out_row(&self, allowed: &mut Allowed, a: u32)
        requires table { IsChainTable self.now }
        requires on { allowed.old.size ≡ self.now.inst.now.required }
        requires a { IsRequired self.now.inst.now a }
        ensures takes { TakesExcluded self.now.inst.now self.now.decisions.now allowed.old allowed.new }
        ensures row { (b : ℕ) → 1 ≤ b → b < a → is_barred self.now a b ≡ true → IsOut allowed.new a b }
    {
        for b in 1..a {
            self.take_out_pair(allowed, a, b);
        }
    }

    // Takes the barred pairs out of a relation.
    fn take_out_barred(&self, allowed: &mut Allowed)
        requires table { IsChainTable self.now }
        requires on { allowed.old.size ≡ self.now.inst.now.required }
        ensures takes { TakesExcluded self.now.inst.now self.now.decisions.now allowed.old allowed.new }
        ensures out { (a b : ℕ) → IsRequired self.now.inst.now a → 1 ≤ b → b < a → is_barred self.now a b ≡ true → IsOut allowed.new a b }
    {
        for a in 1..self.inst.required() + 1 {
            self.take_out_row(allowed, a);
        }
    }

    // Takes the pair of a decision out of a relation if the decision says no to it.
    fn take_out_no(&self, allowed: &mut Allowed, decision: &Decision)
        requires on { allowed.old.size ≡ self.now.inst.now.required }
        requires pair { HasPairWithin self.now.inst.now.required decision.now }
        requires said { (a b : ℕ) → decision.now ≡ No a b → IsNo self.now.decisions.now a b }
        ensures takes { TakesExcluded self.now.inst.now self.now.decisions.now allowed.old allowed.new }
        ensures out { IsNoOut allowed.new decision.now }
    {
        if let Decision::No { a, b } = *decision {
            allowed.exclude(a, b);
        }
    }

    // Takes the pairs of which a decision says no out of a relation.
    fn take_out_said(&self, allowed: &mut Allowed)
        requires table { IsChainTable self.now }
        requires on { allowed.old.size ≡ self.now.inst.now.required }
        ensures takes { TakesExcluded self.now.inst.now self.now.decisions.now allowed.old allowed.new }
        ensures out { All (IsNoOut allowed.new) self.now.decisions.now }
    {
        for decision in self.decisions {
            self.take_out_no(allowed, decision);
        }
    }

    /// The pairs of required edges that are not excluded. The only error is want of memory.
    ///
    /// With m required edges and d decisions it takes time in proportion to m * m + d, and memory in proportion to m * m.
    pub fn allowed(&self, alloc: Global) -> Result<Allowed, Memory>
        requires { IsChainTable self.now }
        ensures { IfOk result (PermitsUnexcluded self.now.inst.now self.now.decisions.now) }
    {
        let mut allowed = Allowed::all(alloc, self.inst)?;
        self.take_out_barred(&mut allowed);
        self.take_out_said(&mut allowed);
        Ok(allowed)
    }

    // Whether a decision says no to the pair.
    fn says_no(&self, a: u32, b: u32) -> bool
        ensures { result ≡ list_any (says_no a b) self.now.decisions.now }
    {
        self.decisions
            .iter()
            .any(|decision| says_no(decision, a, b))
    }

    /// Whether a pair of required edges is determined: yes or excluded. It takes no memory, and time in proportion to
    /// the decisions.
    pub fn determines(&self, a: u32, b: u32) -> bool
        requires table { IsChainTable self.now }
        requires a { IsRequired self.now.inst.now a }
        requires b { IsRequired self.now.inst.now b }
        ensures { IsTrue result ↔ IsDetermined self.now.inst.now self.now.decisions.now a b }
    {
        settles(self.joins(a, b), self.bars(a, b), self.says_no(a, b))
    }

    /// Whether a pair of required edges is excluded. It takes no memory, and time in proportion to the decisions.
    pub fn excludes(&self, a: u32, b: u32) -> bool
        requires table { IsChainTable self.now }
        requires a { IsRequired self.now.inst.now a }
        requires b { IsRequired self.now.inst.now b }
        ensures { IsTrue result ↔ Excluded self.now.inst.now self.now.decisions.now a b }
    {
        self.bars(a, b) || self.says_no(a, b)
    }

    // Whether the pair is permitted, and no yes pair.
    fn leaves_open(&self, allowed: &Allowed, a: u32, b: u32) -> bool
        requires table { IsChainTable self.now }
        requires permits { PermitsUnexcluded self.now.inst.now self.now.decisions.now allowed.now }
        requires a { IsRequired self.now.inst.now a }
        requires b { IsRequired self.now.inst.now b }
        ensures { MatchBool result (¬ (IsDetermined self.now.inst.now self.now.decisions.now a b)) (IsDetermined self.now.inst.now self.now.decisions.now a b) }
    {
        allowed.may(a, b) && !self.joins(a, b)
    }

    // Whether each pair of an edge with the edges before it is determined.
    fn determines_row(&self, allowed: &Allowed, a: u32) -> bool
        requires table { IsChainTable self.now }
        requires permits { PermitsUnexcluded self.now.inst.now self.now.decisions.now allowed.now }
        requires a { IsRequired self.now.inst.now a }
        ensures yes { IsTrue result → (b : ℕ) → 1 ≤ b → b < a → IsDetermined self.now.inst.now self.now.decisions.now a b }
        ensures no { result ≡ false → (b : ℕ) × IsRequired self.now.inst.now b × ¬ (IsDetermined self.now.inst.now self.now.decisions.now a b) }
    {
        for b in 1..a {
            if self.leaves_open(allowed, a, b) {
                return false;
            }
        }
        true
    }

    /// Whether each pair of required edges is determined. `allowed` has the pairs that are not excluded. It takes no
    /// memory, and time in proportion to the pairs.
    pub fn determines_all(&self, allowed: &Allowed) -> bool
        requires table { IsChainTable self.now }
        requires permits { PermitsUnexcluded self.now.inst.now self.now.decisions.now allowed.now }
        ensures yes { IsTrue result → (a b : ℕ) → IsRequired self.now.inst.now a → IsRequired self.now.inst.now b → IsDetermined self.now.inst.now self.now.decisions.now a b }
        ensures no { result ≡ false → (a b : ℕ) × IsRequired self.now.inst.now a × IsRequired self.now.inst.now b × ¬ (IsDetermined self.now.inst.now self.now.decisions.now a b) }
    {
        for a in 1..self.inst.required() + 1 {
            if !self.determines_row(allowed, a) {
                return false;
            }
        }
        true
    }
}

// Whether one of these settles a pair.
fn settles(joined: bool, barred: bool, said_no: bool) -> bool
    ensures { result ≡ (joined || barred || said_no) }
{
    joined || barred || said_no
}

// Whether the decision says no to the pair.
fn says_no(decision: &Decision, a: u32, b: u32) -> bool
    ensures { result ≡ says_no a b decision.now }
{
    match *decision {
        Decision::No { a: c, b: d } => (c == a && d == b) || (c == b && d == a),
        _ => false,
    }
}
