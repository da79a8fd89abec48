// Scans by a rule, for the cases of `data/path_scanning`.

use path_scanning::{Rule, scan};
use samples::{instance_of, plan_text};
use std::alloc::Global;
use std::test::Fail;
use task_tours::cost_distances;

pub fn answer(alloc: Global, over: &str, call: &str, _input: &str) -> Result<String, Fail> {
    let rule = rule_of(call)?;
    let inst = instance_of(alloc, over)?;
    let dist = cost_distances(alloc, &inst)?;
    let plan = scan(alloc, &inst, &dist, rule)?;
    Ok(plan_text(alloc, &plan)?)
}

fn rule_of(word: &str) -> Result<Rule, Fail> {
    match word {
        "far" => Ok(Rule::Far),
        "near" => Ok(Rule::Near),
        "cheap" => Ok(Rule::Cheap),
        "dear" => Ok(Rule::Dear),
        "half" => Ok(Rule::Half),
        _ => Err("no such rule")?,
    }
}
