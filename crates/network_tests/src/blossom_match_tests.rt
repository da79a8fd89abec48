// Answers of least perfect matchings, for the cases of `data/blossom_match`.
ghost use Rattle.std.specs.Prelude.{◌≡◌, ◌≤◌, IfOk};
ghost use Rattle.blossom_match.specs.Answer.{IsMatching};
ghost use Rattle.blossom_match.specs.Table.{IsTable};

use blossom_match::{Costs, MAX_COST, Matching, match_least};
use carp_base::Memory;
use samples::{listed, numbers};
use std::alloc::Global;
use std::test::Fail;

// What a pair of members costs: within a group of so many members that follow each other, and between groups.
#[derive(Clone, Copy)]
struct Groups {
    width: u32,
    inside: u64,
    between: u64,
}

pub fn answer(alloc: Global, _over: &str, call: &str, input: &str) -> Result<String, Fail> {
    if call != "match" {
        Err("no such call")?
    }
    match numbers(alloc, input)?.as_slice() {
        [members, width, inside, between] => {
            let groups = Groups {
                width: (*width).clamp(1, 1000) as u32,
                inside: *inside,
                between: *between,
            };
            matched(alloc, (*members).min(1000) as u32, groups)
        }
        _ => Err("four numbers are asked for")?,
    }
}

// The cost of a least matching, and the sum of the halves of its odd sets.
fn matched(alloc: Global, members: u32, groups: Groups) -> Result<String, Fail>
    requires { members ≤ 1000 }
{
    let costs = table(alloc, members, groups)?;
    if members % 2 != 0 || !costs.is_metric() {
        Err("the members are no pairs, or the costs no distances")?
    }
    let found = match_least(alloc, &costs)?;
    Ok(listed(
        alloc,
        &[twice_the_cost(&costs, &found) / 2, sum_of_halves(&found)],
    )?)
}

fn table(alloc: Global, size: u32, groups: Groups) -> Result<Costs, Memory>
    requires { size ≤ 1000 }
    ensures table { IfOk result IsTable }
    ensures size { IfOk result (λ c. c.size ≡ size) }
{
    let mut costs = Costs::new(alloc, size)?;
    for a in 0..size + 1 {
        fill_row(&mut costs, a, groups);
    }
    Ok(costs)
}

fn fill_row(costs: &mut Costs, a: u32, groups: Groups)
    requires { IsTable costs.old }
    ensures table { IsTable costs.new }
    ensures size { costs.new.size ≡ costs.old.size }
{
    for b in 0..a {
        put(costs, a, b, cost_by(groups, a, b));
    }
}

fn cost_by(groups: Groups, a: u32, b: u32) -> u64 {
    let group = |v: u32| v.wrapping_sub(1).checked_div(groups.width);
    if group(a) == group(b) {
        groups.inside
    } else {
        groups.between
    }
}

// Sets a cost, where the members and the cost are in range.
fn put(costs: &mut Costs, a: u32, b: u32, cost: u64)
    requires { IsTable costs.old }
    ensures table { IsTable costs.new }
    ensures size { costs.new.size ≡ costs.old.size }
{
    let size = costs.members();
    if 1 <= a && a <= size && 1 <= b && b <= size && a != b && cost <= MAX_COST {
        costs.set(a, b, cost);
    }
}

// Each pair counts twice.
fn twice_the_cost(costs: &Costs, found: &Matching) -> u64
    requires table { IsTable costs.now }
    requires matching { IsMatching found.now }
{
    let mut sum: u64 = 0;
    for v in 1..found.members() + 1 {
        sum = sum.saturating_add(cost_of(costs, v, found.mate(v)));
    }
    sum
}

// The cost of a pair, and 0 out of range.
fn cost_of(costs: &Costs, a: u32, b: u32) -> u64
    requires { IsTable costs.now }
{
    let size = costs.members();
    if 1 <= a && a <= size && 1 <= b && b <= size {
        costs.get(a, b)
    } else {
        0
    }
}

fn sum_of_halves(found: &Matching) -> u64 {
    let mut sum: u64 = 0;
    for i in 0..found.sets() {
        sum = sum.saturating_add(found.halves(i));
    }
    sum
}
