//! Tests of least relaxed tours, of price sets that are made tight, and of the floors of the bound (crates `route_pricing`, `tight_prices` and
//! `dual_master`): a program that tries the cases of `data/`, a file for each of these crates.
//!
//! A case is a line, so a new one needs no code and no proof. The head of each file says how to read its lines, and [`samples::try_cases`] what
//! else may stand there.
#![tactic(auto)]

mod dual_master_tests;
mod route_pricing_tests;
mod tight_prices_tests;

use samples::try_cases;
use std::test::Fail;

fn main(rt: HostRuntime) -> Result<(), Fail> {
    let agree = [
        try_cases(&rt, "route_pricing", route_pricing_tests::answer)?,
        try_cases(&rt, "tight_prices", tight_prices_tests::answer)?,
        try_cases(&rt, "dual_master", dual_master_tests::answer)?,
    ];
    if agree.contains(&false) {
        Err("some cases differ")?
    }
    Ok(())
}
