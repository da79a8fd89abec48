//! Tests of decisions, of the nodes and the weights under them, and of certificates (crates `decision_chains`, `branch_rules`, `cert_format` and
//! `cert_checker`): a program that tries the cases of `data/`, a file for each of these crates.
//!
//! A case is a line, so a new one needs no code and no proof. The head of each file says how to read its lines, and [`samples::try_cases`] what
//! else may stand there.
#![tactic(auto)]

mod branch_rules_tests;
mod cert_checker_tests;
mod cert_format_tests;
mod decision_chains_tests;

use samples::try_cases;
use std::test::Fail;

fn main(rt: HostRuntime) -> Result<(), Fail> {
    let agree = [
        try_cases(&rt, "decision_chains", decision_chains_tests::answer)?,
        try_cases(&rt, "branch_rules", branch_rules_tests::answer)?,
        try_cases(&rt, "cert_format", cert_format_tests::answer)?,
        try_cases(&rt, "cert_checker", cert_checker_tests::answer)?,
    ];
    if agree.contains(&false) {
        Err("some cases differ")?
    }
    Ok(())
}
