// The greatest raise of one number.
ghost use Rattle.std.specs.Prelude.{◌≡◌, ◌⊎◌, ◌-◌, ◌<◌, ◌≤◌, ◌≤ℤ◌, false, pos, IfOk};
ghost use Rattle.route_pricing.specs.Tables.{IsReady, IsRoom};
ghost use Rattle.tight_prices.specs.Probes.{IsSetting, ground_of};
ghost use Rattle.tight_prices.specs.Places.{IsOnShore, IsPlaceIn, Rises};
ghost use Rattle.tight_prices.specs.Searches.{AreStillMost, IsEdgeOf, IsSearch};
ghost use Rattle.tight_prices.specs.Tight.{AreKept};

use crate::place::{Place, raise};
use crate::probe::{Probe, Setting, try_set};
use branch_rules::{PriceSet, surcharges_are_bond_weights};
use carp_base::{Memory, Task};
use deadhead_paths::least_prices_are_there;
use route_pricing::{Rate, Table};
use std::alloc::Global;

/// A set that fits, by how much more the number can be raised at most, and whether the table is filled for the set. The
/// raise that is tried next is a guess, and any will do: it only matters for the number of tries.
#[derive(Drop)]
pub(crate) struct Search {
    pub(crate) set: PriceSet,
    pub(crate) most: u64,
    pub(crate) filled: bool,
    pub(crate) guess: u64,
    pub(crate) tries: u32,
}

/// After so many tries the way that is left is halved by each.
const QUICK: u32 = 12;

/// A weight rises by so many times as much as in the try before, while tries fit.
const FASTER: u64 = 16;

/// Raises a number of a set that fits as far as it goes.
pub(crate) fn highest(
    alloc: Global,
    setting: &Setting<'_>,
    table: &mut Table,
    start: Search,
    place: Place,
) -> Result<Search, Memory>
    requires setting { IsSetting setting.now }
    requires room { IsRoom setting.now.inst.now table.old }
    requires place { IsPlaceIn setting.now.inst.now setting.now.pool.now place }
    requires start { IsSearch (ground_of setting.now) place table.old start }
    ensures room { IsRoom setting.now.inst.now table.new }
    ensures search { IfOk result (IsSearch (ground_of setting.now) place table.new) }
    ensures done { IfOk result (λ search. search.most ≡ 0) }
    ensures rises { IfOk result (λ search. Rises setting.now.inst.now setting.now.pool.now setting.now.branch.now start.set search.set) }
    ensures kept { IfOk result (λ search. AreKept (IsOnShore place) start.set search.set) }
{
    let mut search = start;
    while search.most > 0 {
        search = step(alloc, setting, table, search, place)?;
    }
    Ok(search)
}

// One try: the set is raised, or the way that is left is shorter.
fn step(
    alloc: Global,
    setting: &Setting<'_>,
    table: &mut Table,
    search: Search,
    place: Place,
) -> Result<Search, Memory>
    requires setting { IsSetting setting.now }
    requires room { IsRoom setting.now.inst.now table.old }
    requires place { IsPlaceIn setting.now.inst.now setting.now.pool.now place }
    requires search { IsSearch (ground_of setting.now) place table.old search }
    requires left { 0 < search.most }
    ensures room { IsRoom setting.now.inst.now table.new }
    ensures search { IfOk result (IsSearch (ground_of setting.now) place table.new) }
    ensures less { IfOk result (λ next. next.most < search.most) }
    ensures rises { IfOk result (λ next. Rises setting.now.inst.now setting.now.pool.now setting.now.branch.now search.set next.set) }
    ensures kept { IfOk result (λ next. AreKept (IsOnShore place) search.set next.set) }
{
    least_prices_are_there();
    let more = search.guess.max(1).min(search.most);
    let trial = raise(alloc, setting.pool, &search.set, place, more)?;
    match try_set(alloc, setting, table, &trial)? {
        Probe::Pays => Ok(accepted(table, &search, trial, place, more)),
        Probe::Lacks(value) => {
            let guess = lower_guess(alloc, table, place, more, value, search.tries)?;
            Ok(refused(search, more, guess))
        }
        Probe::TooHeavy => Ok(refused(search, more, more / 2)),
    }
}

// The search with the trial as its set, for which the table is filled.
fn accepted(table: &Table, search: &Search, trial: PriceSet, place: Place, more: u64) -> Search
    requires ready { IsReady table.now }
    requires edge { IsEdgeOf table.now place }
    requires within { more ≤ search.now.most }
    ensures set { result.set ≡ trial }
    ensures low { result.most ≤ search.now.most - more }
    ensures most { AreStillMost table.now place (search.now.most - more) result.most }
{
    let most = left(table, place, search.most - more);
    Search {
        set: trial,
        most,
        filled: true,
        guess: upper_guess(place, most, search, more),
        tries: search.tries.saturating_add(1),
    }
}

// The search with less of a way, after a trial that does not fit.
fn refused(search: Search, more: u64, guess: u64) -> Search
    requires { 1 ≤ more }
    ensures set { result.set ≡ search.set }
    ensures most { result.most ≡ more - 1 }
    ensures filled { result.filled ≡ false }
{
    Search {
        set: search.set,
        most: more - 1,
        filled: false,
        guess,
        tries: search.tries.saturating_add(1),
    }
}

/// By how much a number can be raised at most, by a table that is filled for the set: a price by no more than the least
/// value of the tours that serve the edge. It takes as many steps as the capacity.
pub(crate) fn left(table: &Table, place: Place, most: u64) -> u64
    requires ready { IsReady table.now }
    requires edge { IsEdgeOf table.now place }
    ensures low { result ≤ most }
    ensures most { AreStillMost table.now place most result }
{
    surcharges_are_bond_weights();
    match place {
        Place::Edge(e) => capped(table.through(e, Rate { value: 0, load: 1 }), most),
        Place::Shore(_) => most,
    }
}

// The lesser of two numbers, or 0 where the first one is negative.
fn capped(value: i128, most: u64) -> u64
    ensures low { result ≤ most }
    ensures either { (result ≡ most) ⊎ (value ≤ℤ pos result) }
{
    if value <= 0 {
        0
    } else if value < i128::from(most) {
        value as u64
    } else {
        most
    }
}

// What is tried after a trial that fits. A price is bounded well by its tours. A weight mostly rises by a few parts, so
// its tries grow from 1 (exponential search); after one that did not fit it is likely that the weight rises no further.
fn upper_guess(place: Place, most: u64, search: &Search, more: u64) -> u64 {
    if search.tries >= QUICK {
        return most / 2 + 1;
    }
    match place {
        Place::Edge(_) => most,
        Place::Shore(_) if search.filled => more.saturating_mul(FASTER),
        Place::Shore(_) => 1,
    }
}

// What is tried after a trial that does not fit: the greatest raise with which the least tour might pay, as if no other tour were less
// then (Newton's method from above). A tour is taken to cross the shore of a vertex twice.
fn lower_guess(
    alloc: Global,
    table: &Table,
    place: Place,
    more: u64,
    value: i128,
    tries: u32,
) -> Result<u64, Memory>
    requires { IsReady table.now }
{
    if tries >= QUICK {
        return Ok(more / 2);
    }
    match place {
        Place::Edge(e) => Ok(below(more, value, services_of(alloc, table, e)?)),
        Place::Shore(_) => Ok(below(more, value, 2)),
    }
}

// How often the least tour serves an edge, and at least 1.
fn services_of(alloc: Global, table: &Table, e: u32) -> Result<u64, Memory>
    requires { IsReady table.now }
    ensures { IfOk result (λ times. 1 ≤ times) }
{
    match table.tour(alloc)? {
        Some(tasks) => Ok(times_of(&tasks, e)),
        None => Ok(1),
    }
}

// How often an edge is served by tasks, and at least 1.
fn times_of(tasks: &[Task], e: u32) -> u64
    ensures { 1 ≤ result }
{
    let times = tasks.iter().filter(|task| task.edge == e).count();
    (times as u64).max(1)
}

// A raise that is less by what is lacking, shared by so many.
fn below(more: u64, value: i128, times: u64) -> u64
    requires { 1 ≤ times }
{
    let fall = value.unsigned_abs().div_ceil(u128::from(times));
    u128::from(more).saturating_sub(fall) as u64
}
