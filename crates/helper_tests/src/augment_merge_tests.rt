// Plans of absorbed and joined tours, for the cases of `data/augment_merge`.

use augment_merge::augment_merge;
use samples::{instance_of, plan_text};
use std::alloc::Global;
use std::test::Fail;
use task_tours::cost_distances;

pub fn answer(alloc: Global, over: &str, call: &str, _input: &str) -> Result<String, Fail> {
    if call != "merge" {
        Err("no such call")?
    }
    let inst = instance_of(alloc, over)?;
    let dist = cost_distances(alloc, &inst)?;
    let plan = augment_merge(alloc, &inst, &dist)?;
    Ok(plan_text(alloc, &plan)?)
}
