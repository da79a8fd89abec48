//! Tests of a whole command whose calls fail in turn, over files and an output in memory (crate `carp_cli`), and of what the engine finds without
//! helpers (crate `carp_engine`): a program that tries the cases of `data/`, a file for each of these crates.
//!
//! What the program answers over real files is tried on the built program (`.ci/answers`, `.ci/program`, `.ci/hostile`). The head of each file says
//! how to read its lines, and [`samples::try_cases`] what else may stand there.
#![tactic(auto)]

mod carp_cli_tests;
mod carp_engine_tests;

use samples::try_cases;
use std::test::Fail;

fn main(rt: HostRuntime) -> Result<(), Fail> {
    let agree = [
        try_cases(&rt, "carp_cli", carp_cli_tests::answer)?,
        try_cases(&rt, "carp_engine", carp_engine_tests::answer)?,
    ];
    if agree.contains(&false) {
        Err("some cases differ")?
    }
    Ok(())
}
