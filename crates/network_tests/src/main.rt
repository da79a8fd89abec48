//! Tests of networks (crates `blossom_match`, `flow_cut`, `matching_duals`, `deadhead_paths` and `capacity_cuts`): a program that tries the cases of
//! `data/`, a file for each of these crates.
#![tactic(auto)]

mod blossom_match_tests;
mod flow_cut_tests;
mod paths_tests;

use samples::try_cases;
use std::test::Fail;

fn main(rt: HostRuntime) -> Result<(), Fail> {
    let agree = [
        try_cases(&rt, "blossom_match", blossom_match_tests::answer)?,
        try_cases(&rt, "flow_cut", flow_cut_tests::answer)?,
        try_cases(&rt, "paths", paths_tests::answer)?,
    ];
    if agree.contains(&false) {
        Err("some cases differ")?
    }
    Ok(())
}
