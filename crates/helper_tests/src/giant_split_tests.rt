// Splits of one order of all services, for the cases of `data/giant_split`.

use carp_base::Instance;
use deadhead_paths::single_tours;
use giant_split::{order_of, split};
use samples::instance_of;
use std::alloc::Global;
use std::test::Fail;
use task_tours::{cost_distances, lawful_cost, plans_are_tours};

pub fn answer(alloc: Global, over: &str, call: &str, _input: &str) -> Result<String, Fail> {
    if call != "split" {
        Err("no such call")?
    }
    let inst = instance_of(alloc, over)?;
    split_by_numbers(alloc, &inst)
}

// How many tours the split of the required edges by their numbers has, each served forward, and what it costs.
fn split_by_numbers(alloc: Global, inst: &Instance) -> Result<String, Fail> {
    plans_are_tours();
    let dist = cost_distances(alloc, inst)?;
    let singles = single_tours(alloc, inst, &dist)?;
    let order = order_of(alloc, &singles)?;
    let plan = split(alloc, inst, &dist, &order)?;
    let (tours, cost) = (plan.len(), lawful_cost(alloc, inst, &plan)?);
    Ok(format!(in alloc; "{tours} {cost}")?)
}
