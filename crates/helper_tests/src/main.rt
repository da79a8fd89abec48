//! Tests of the helpers that make tours, and of the rounds in which helpers are asked (crates `path_scanning`, `augment_merge`, `giant_split`,
//! `local_moves` and `helper_rounds`): a program that tries the cases of `data/`, a file for each of these crates.
//!
//! A case is a line, so a new one needs no code and no proof. The head of each file says how to read its lines, and
//! [`samples::try_cases`] what else may stand there.
#![tactic(auto)]

mod actor;
mod augment_merge_tests;
mod giant_split_tests;
mod helper_rounds_tests;
mod local_moves_tests;
mod path_scanning_tests;

use samples::try_cases;
use std::test::Fail;

fn main(rt: HostRuntime) -> Result<(), Fail> {
    let agree = [
        try_cases(&rt, "path_scanning", path_scanning_tests::answer)?,
        try_cases(&rt, "augment_merge", augment_merge_tests::answer)?,
        try_cases(&rt, "giant_split", giant_split_tests::answer)?,
        try_cases(&rt, "local_moves", local_moves_tests::answer)?,
        try_cases(&rt, "helper_rounds", helper_rounds_tests::answer)?,
    ];
    if agree.contains(&false) {
        Err("some cases differ")?
    }
    Ok(())
}
