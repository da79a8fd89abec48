// Answers of the chains of decisions, for the cases of `data/decision_chains`.
ghost use Rattle.std.specs.Prelude.{IsTrue};
ghost use Rattle.carp_base.specs.Problem.{IsRequired};
ghost use Rattle.decision_chains.specs.ChainTables.{IsChainTable};
ghost use Rattle.decision_chains.specs.Pairs.{ArePairsIn, HasPairWithin};

use carp_base::Instance;
use decision_chains::{Chains, Decision, is_pair};
use samples::{instance_of, numbers32, part, yes_or_no};
use std::alloc::Global;
use std::test::Fail;

pub fn answer(alloc: Global, over: &str, call: &str, input: &str) -> Result<String, Fail> {
    let inst = instance_of(alloc, over)?;
    let decisions = decisions_of(alloc, part(input, 0))?;
    if !are_pairs_in(&inst, &decisions) {
        Err("pairs of required edges")?
    }
    tell(alloc, &inst, &decisions, call, part(input, 1))
}

// What the chains of the decisions tell.
fn tell(
    alloc: Global,
    inst: &Instance,
    decisions: &[Decision],
    call: &str,
    pair: &str,
) -> Result<String, Fail>
    requires { ArePairsIn inst.now decisions.now }
{
    let chains = Chains::of(alloc, inst, decisions)?;
    match call {
        "chains" => Ok(String::from_str(alloc, kind_of(&chains))?),
        "excludes" => excludes(alloc, &chains, pair),
        "determines" => determines(alloc, &chains, pair),
        _ => Err("no such call")?,
    }
}

// The decisions of a text: `yes 1 2, no 3 4`.
fn decisions_of(alloc: Global, text: &str) -> Result<Vec<Decision>, Fail> {
    let mut decisions = Vec::new(alloc);
    for part in text.split(',') {
        if part.trim() != "none" {
            let decision = decision_of(alloc, part.trim())?;
            decisions.push(decision)?;
        }
    }
    Ok(decisions)
}

fn decision_of(alloc: Global, text: &str) -> Result<Decision, Fail> {
    let (says, pair) = text.split_once(' ').unwrap_or((text, ""));
    let [a, b] = pair_of(alloc, pair)?;
    match says {
        "yes" => Ok(Decision::Yes { a, b }),
        "no" => Ok(Decision::No { a, b }),
        _ => Err("a decision is a yes or a no")?,
    }
}

fn pair_of(alloc: Global, text: &str) -> Result<[u32; 2], Fail> {
    let numbers = numbers32(alloc, text)?;
    match numbers.as_slice() {
        [a, b] => Ok([*a, *b]),
        _ => Err("a pair has two edges")?,
    }
}

// Whether the pair of a decision is of two required edges.
fn is_pair_in(inst: &Instance, decision: &Decision) -> bool
    ensures { IsTrue result → HasPairWithin inst.now.required decision.now }
{
    match *decision {
        Decision::Yes { a, b } | Decision::No { a, b } => is_pair(inst, a, b),
        _ => true,
    }
}

// The same, of all decisions.
fn are_pairs_in(inst: &Instance, decisions: &[Decision]) -> bool
    ensures { IsTrue result → ArePairsIn inst.now decisions.now }
{
    for decision in decisions {
        if !is_pair_in(inst, decision) {
            return false;
        }
    }
    true
}

fn kind_of(chains: &Chains<'_>) -> &'static str
    requires { IsChainTable chains.now }
{
    match (chains.tangled, chains.is_overloaded()) {
        (true, _) => "tangled",
        (false, true) => "heavy",
        (false, false) => "light",
    }
}

// Whether a number is that of a required edge.
fn is_edge(inst: &Instance, e: u32) -> bool
    ensures { IsTrue result → IsRequired inst.now e }
{
    1 <= e && e <= inst.required()
}

// Whether two edges may not follow each other.
fn excludes(alloc: Global, chains: &Chains<'_>, pair: &str) -> Result<String, Fail>
    requires { IsChainTable chains.now }
{
    let [a, b] = pair_of(alloc, pair)?;
    if !is_edge(chains.inst, a) || !is_edge(chains.inst, b) {
        Err("required edges")?
    }
    Ok(yes_or_no(alloc, chains.excludes(a, b))?)
}

// Whether it is known if two edges follow each other.
fn determines(alloc: Global, chains: &Chains<'_>, pair: &str) -> Result<String, Fail>
    requires { IsChainTable chains.now }
{
    let [a, b] = pair_of(alloc, pair)?;
    if !is_edge(chains.inst, a) || !is_edge(chains.inst, b) {
        Err("required edges")?
    }
    Ok(yes_or_no(alloc, chains.determines(a, b))?)
}
