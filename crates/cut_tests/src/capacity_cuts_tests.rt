// Answers of the searches for violated sets, for the cases of `data/capacity_cuts`.
ghost use Rattle.std.specs.Prelude.{◌≤◌};
ghost use Rattle.edge_components.specs.Parts.{AreParts};

use capacity_cuts::{find_components, find_fractional};
use carp_base::Instance;
use edge_components::are_parts;
use road_network::Network;
use samples::{instance_of, number, numbers, part, shores, vertices};
use std::alloc::Global;
use std::test::Fail;

pub fn answer(alloc: Global, over: &str, call: &str, input: &str) -> Result<String, Fail> {
    let inst = instance_of(alloc, over)?;
    let x = numbers(alloc, part(input, 0))?;
    let unit = number(part(input, 1))?;
    if !are_parts(&inst, &x) || unit < 1 || 1_000_000 < unit {
        Err("the parts do not fit")?
    }
    match call {
        "greatest" => greatest(alloc, &inst, &x, unit),
        "components" => components(alloc, &inst, &x, unit),
        _ => Err("no such call")?,
    }
}

// A set of greatest violation.
fn greatest(alloc: Global, inst: &Instance, x: &[u64], unit: u64) -> Result<String, Fail>
    requires parts { AreParts inst.now x.now }
    requires some { 1 ≤ unit }
    requires small { unit ≤ 1000000 }
{
    match find_fractional(alloc, inst, x, unit)? {
        None => Ok(String::from_str(alloc, "none")?),
        Some(shore) => Ok(vertices(alloc, &shore)?),
    }
}

// The violated components.
fn components(alloc: Global, inst: &Instance, x: &[u64], unit: u64) -> Result<String, Fail>
    requires parts { AreParts inst.now x.now }
    requires some { 1 ≤ unit }
    requires small { unit ≤ 1000000 }
{
    let net = Network::new(alloc, inst)?;
    Ok(shores(alloc, &find_components(alloc, inst, &net, x, unit)?)?)
}
