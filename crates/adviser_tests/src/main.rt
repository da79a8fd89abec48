//! Tests of a search whose advisers are not to be trusted (crates `leaf_adviser`, `dual_master`, `branch_tree` and `carp_engine`): a program that
//! tries the cases of `data/liars`.
#![tactic(auto)]

mod liar;
mod liars_tests;
mod listener;

use samples::try_cases;
use std::test::Fail;

fn main(rt: HostRuntime) -> Result<(), Fail> {
    if !try_cases(&rt, "liars", liars_tests::answer)? {
        Err("some cases differ")?
    }
    Ok(())
}
