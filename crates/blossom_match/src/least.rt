// Least perfect matchings (Edmonds 1965).
ghost use Rattle.std.specs.Prelude.{◌≡◌, ℕ, ◌+◌, ◌-◌, ◌<◌, ◌≤◌, length, slice_index, IfOk};
ghost use Rattle.blossom_match.specs.Table.{IsAsked};
ghost use Rattle.blossom_match.specs.Between.{IsBetween, IsTreeless, HasMate, KeepsMates};
ghost use Rattle.blossom_match.specs.Unfolded.{IsUnfolded, mate_of};
ghost use Rattle.blossom_match.specs.Answer.{IsLeastBy, IsMatching, halves_in, len_in, mate_in, member_in, sets_in};

use crate::Costs;
use crate::beginning::begin;
use crate::picking::list_sets;
use crate::search::search;
use crate::state::State;
use crate::unfold::unfold;
use carp_base::Memory;
use std::alloc::Global;

/// A perfect matching, and weights of odd sets that show that it is least. Members are numbered from 1, and the sets
/// from 0.
///
/// The sets are distinct, and any two are nested or disjoint. Each has a weight above 0. For each pair of members, the
/// weights of the sets that hold one of them and not the other sum to at most twice the cost of the pair. All weights
/// sum to twice the cost of the matching.
#[derive(Debug, Drop)]
pub struct Matching {
    pub(crate) size: usize,
    pub(crate) mates: Vec<usize>,
    pub(crate) starts: Vec<usize>,
    pub(crate) members: Vec<u32>,
    pub(crate) weights: Vec<u64>,
}

impl Matching {
    /// The member that is matched with `v`, in constant time.
    pub fn mate(&self, v: u32) -> u32
        requires made { IsMatching self.now }
        requires v_in { (1 ≤ v) × (v ≤ self.now.size) }
        ensures { result ≡ mate_in self.now (v - 1) + 1 }
    {
        self.mates[v as usize - 1] as u32 + 1
    }

    /// The number of members.
    pub fn members(&self) -> u32
        requires { IsMatching self.now }
        ensures { result ≡ self.now.size }
    {
        self.size as u32
    }

    /// The number of sets that have a weight.
    pub fn sets(&self) -> usize
        ensures { result ≡ sets_in self.now }
    {
        self.weights.len()
    }

    /// The number of members of set `i`, which is odd.
    pub fn set_len(&self, i: usize) -> usize
        requires made { IsMatching self.now }
        requires i_in { i < sets_in self.now }
        ensures { result ≡ len_in self.now i }
    {
        self.starts[i + 1] - self.starts[i]
    }

    /// The member of set `i` at place `j`, from 0. They ascend.
    pub fn member(&self, i: usize, j: usize) -> u32
        requires made { IsMatching self.now }
        requires i_in { i < sets_in self.now }
        requires j_in { j < len_in self.now i }
        ensures { result ≡ member_in self.now i j }
    {
        self.members[self.starts[i] + j]
    }

    /// The weight of set `i`, in halves of a unit of cost: above 0.
    pub fn halves(&self, i: usize) -> u64
        requires i_in { i < sets_in self.now }
        ensures { result ≡ halves_in self.now i }
    {
        self.weights[i]
    }
}

/// The mate of each member.
fn list_mates(alloc: Global, costs: &Costs, state: &State) -> Result<Vec<usize>, Memory>
    requires { IsUnfolded costs.now state.now }
    ensures len { IfOk result (λ l. length l.items ≡ state.now.size) }
    ensures mates { IfOk result (λ l. (v : ℕ) → v < state.now.size → slice_index l.items v ≡ mate_of state.now v) }
{
    let mut mates = Vec::with_capacity(alloc, state.size)?;
    for v in 0..state.size {
        match state.mate[v] {
            Some(pair) => mates.push(pair.outside)?,
            None => unreachable!(),
        }
    }
    Ok(mates)
}

/// Matches the node of one member, if it is not matched yet.
fn match_one(costs: &Costs, state: &mut State, v: usize, known: &mut [bool], least: &mut [u64])
    requires asked { IsAsked costs.now }
    requires between { IsBetween costs.now state.old }
    requires treeless { IsTreeless state.old.label.items }
    requires v_in { v < state.old.size }
    requires known { length known.old ≡ state.old.size }
    requires least { length least.old ≡ state.old.size }
    ensures between { IsBetween costs.now state.new }
    ensures treeless { IsTreeless state.new.label.items }
    ensures keeps { KeepsMates state.old state.new }
    ensures matched { HasMate state.new v }
{
    if state.mate[state.top[v]].is_none() {
        search(costs, state, v, known, least);
    }
}

/// Matches all members, outermost sets with outermost sets.
fn match_all(costs: &Costs, state: &mut State, known: &mut [bool], least: &mut [u64])
    requires asked { IsAsked costs.now }
    requires between { IsBetween costs.now state.old }
    requires treeless { IsTreeless state.old.label.items }
    requires known { length known.old ≡ state.old.size }
    requires least { length least.old ≡ state.old.size }
    ensures between { IsBetween costs.now state.new }
    ensures all { (v : ℕ) → v < state.new.size → HasMate state.new v }
{
    for v in 0..state.size {
        match_one(costs, state, v, known, least);
    }
}

/// A perfect matching of least cost, for an even number of members and costs that meet the triangle inequality, with
/// the weights that show that it is least. It takes memory of the order of `n * n` for n members. Its only error is
/// want of memory.
pub fn match_least(alloc: Global, costs: &Costs) -> Result<Matching, Memory>
    requires { IsAsked costs.now }
    ensures { IfOk result (IsLeastBy costs.now) }
{
    let mut state = begin(alloc, costs)?;
    let mut known = vec![in alloc; false; state.size]?;
    let mut least = vec![in alloc; 0; state.size]?;
    match_all(costs, &mut state, &mut known, &mut least);
    unfold(costs, &mut state);
    let mates = list_mates(alloc, costs, &state)?;
    let sets = list_sets(alloc, costs, &state)?;
    Ok(Matching {
        size: state.size,
        mates,
        starts: sets.starts,
        members: sets.members,
        weights: sets.weights,
    })
}
