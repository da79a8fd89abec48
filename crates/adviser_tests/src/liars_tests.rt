// Answers of searches with an adviser that lies or listens, for the cases of `data/liars`.
ghost use Rattle.std.specs.Prelude.{◌≤◌};
ghost use Rattle.cert_lines.specs.Spelling.{IsSpellable};
ghost use Rattle.cert_format.specs.Certs.{certificate_in};

use crate::liar::{Liar, Lie, lie_of};
use crate::listener::Listener;
use carp_base::Instance;
use carp_engine::solve_with;
use cert_checker::{Answer, check};
use cert_format::Cert;
use plan_model::Proposer;
use progress::Silent;
use samples::{instance_of, number};
use std::alloc::Global;
use std::test::Fail;

pub fn answer(alloc: Global, over: &str, call: &str, input: &str) -> Result<String, Fail> {
    let inst = instance_of(alloc, over)?;
    let turns = number(input)?;
    if turns < 1 || 1_048_576 < turns {
        Err("the turns are out of range")?
    }
    if call == "hears" {
        return heard(alloc, &inst, turns);
    }
    match lie_of(call) {
        Some(lie) => searched(alloc, &inst, turns, lie),
        None => Err("no such adviser")?,
    }
}

// The cost and the bound that a search ends with, if one adviser is asked.
fn searched(alloc: Global, inst: &Instance, turns: u64, lie: Lie) -> Result<String, Fail>
    requires some_turns { 1 ≤ turns }
    requires turns_in_range { turns ≤ 1048576 }
{
    let mut helpers: Vec<Box<dyn Proposer>> = Vec::new(alloc);
    let mut advisers: Vec<Liar> = Vec::new(alloc);
    advisers.push(Liar::new(lie))?;
    let solved = solve_with(
        alloc,
        inst,
        turns,
        1,
        &mut helpers,
        &mut advisers,
        &mut Silent,
    )?;
    judged(alloc, inst, &solved.cert)
}

// For how many turns an adviser hears that a search begins.
fn heard(alloc: Global, inst: &Instance, turns: u64) -> Result<String, Fail>
    requires some_turns { 1 ≤ turns }
    requires turns_in_range { turns ≤ 1048576 }
{
    let mut helpers: Vec<Box<dyn Proposer>> = Vec::new(alloc);
    let mut advisers: Vec<Listener> = Vec::new(alloc);
    advisers.push(Listener { heard: 0 })?;
    solve_with(
        alloc,
        inst,
        turns,
        1,
        &mut helpers,
        &mut advisers,
        &mut Silent,
    )?;
    let heard = advisers.pop().map_or(0, |listener| listener.heard);
    Ok(format!(in alloc; "{heard}")?)
}

// The cost and the bound of a certificate, once a check has accepted it.
fn judged(alloc: Global, inst: &Instance, cert: &Cert) -> Result<String, Fail>
    requires { IsSpellable (certificate_in cert.now) }
{
    let (cost, bound) = (cert.cost, cert.bound);
    match check(alloc, inst, cert)? {
        Answer::Accepted => Ok(format!(in alloc; "cost {cost}, bound {bound}")?),
        Answer::Rejected(_) => Err("a check rejects the certificate")?,
    }
}
