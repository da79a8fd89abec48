// What is found without helpers.
ghost use Rattle.std.specs.Prelude.{◌≤◌};

use carp_base::Instance;
use carp_engine::solve;
use plan_model::Proposer;
use progress::Silent;
use samples::{instance_of, listed, number};
use std::alloc::Global;
use std::test::Fail;

/// The answer to a case.
pub(crate) fn answer(alloc: Global, over: &str, call: &str, input: &str) -> Result<String, Fail> {
    match call {
        "solve" => answer_of_solve(alloc, over, number(input)?),
        _ => Err("no such call")?,
    }
}

fn answer_of_solve(alloc: Global, over: &str, turns: u64) -> Result<String, Fail> {
    if turns < 1 || turns > 1_048_576 {
        Err("so many turns cannot be asked for")?
    }
    let inst = instance_of(alloc, over)?;
    let found = found(alloc, &inst, turns)?;
    Ok(listed(alloc, &found)?)
}

// The cost and the bound by so many turns.
fn found(alloc: Global, inst: &Instance, turns: u64) -> Result<[u64; 2], Fail>
    requires some_turns { 1 ≤ turns }
    requires turns_in_range { turns ≤ 1048576 }
{
    let mut helpers: Vec<Box<dyn Proposer>> = Vec::new(alloc);
    let solved = solve(alloc, inst, turns, 1, &mut helpers, &mut Silent)?;
    Ok([solved.cert.cost, solved.cert.bound])
}
