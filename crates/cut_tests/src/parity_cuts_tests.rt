// Answers of the search for odd components, for the cases of `data/parity_cuts`.

use parity_cuts::find;
use road_network::Network;
use samples::{instance_of, numbers, shores};
use std::alloc::Global;
use std::test::Fail;

pub fn answer(alloc: Global, over: &str, call: &str, input: &str) -> Result<String, Fail> {
    if call != "odd" {
        Err("no such call")?
    }
    let inst = instance_of(alloc, over)?;
    let x = numbers(alloc, input)?;
    if x.len() != inst.edge_count() as usize {
        Err("a number for each edge")?
    }
    let net = Network::new(alloc, &inst)?;
    Ok(shores(alloc, &find(alloc, &inst, &net, &x)?)?)
}
