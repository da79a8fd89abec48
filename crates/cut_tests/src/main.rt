//! Tests of searches for cuts, of linear programs after many steps, and of checks of packings (crates `parity_cuts`, `capacity_cuts`,
//! `linear_program` and `packing_trees`): a program that tries the cases of `data/`, a file for each of these crates.
//!
//! A case is a line, so a new one needs no code and no proof. The head of each file says how to read its lines, and
//! [`samples::try_cases`] what else may stand there.
#![tactic(auto)]

mod capacity_cuts_tests;
mod linear_program_tests;
mod packing_trees_tests;
mod parity_cuts_tests;

use samples::try_cases;
use std::test::Fail;

fn main(rt: HostRuntime) -> Result<(), Fail> {
    let agree = [
        try_cases(&rt, "parity_cuts", parity_cuts_tests::answer)?,
        try_cases(&rt, "capacity_cuts", capacity_cuts_tests::answer)?,
        try_cases(&rt, "linear_program", linear_program_tests::answer)?,
        try_cases(&rt, "packing_trees", packing_trees_tests::answer)?,
    ];
    if agree.contains(&false) {
        Err("some cases differ")?
    }
    Ok(())
}
