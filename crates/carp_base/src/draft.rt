// An instance whose faults are still to be looked for.
ghost use Rattle.std.specs.Prelude.{◌≡◌, ◌<◌, ◌≤◌, All, length, position, IfSome, MatchResult, OnOk, IfErr, vec_len};
ghost use Rattle.carp_base.specs.Faults.{IsFirstFault};
ghost use Rattle.carp_base.specs.Checks.{IsClear, is_loop, costs_too_much, has_no_demand, is_overweight, has_dear_service};
ghost use Rattle.carp_base.specs.Search.{AreReached, is_cut_off};
ghost use Rattle.carp_base.specs.Refusals.{RefusesFirstFault};

use crate::search::marks_reached;
use crate::{Edge, Fail, InstanceFault};
use std::alloc::Global;

/// The numbers and edges of a description, the required edges first.
#[derive(Drop)]
pub(crate) struct Draft {
    pub(crate) vertices: u64,
    pub(crate) depot: u64,
    pub(crate) capacity: u64,
    pub(crate) required: usize,
    pub(crate) edges: Vec<Edge>,
    ghost required_in: { required ≤ vec_len edges },
}

fn first_loop(edges: &[Edge]) -> Option<usize>
    ensures value { result ≡ position is_loop edges.now }
    ensures bound { IfSome result (λ i. i < length edges.now) }
{
    edges.iter().position(|x| x.u == x.v)
}

fn first_costly(edges: &[Edge]) -> Option<usize>
    ensures value { result ≡ position costs_too_much edges.now }
    ensures bound { IfSome result (λ i. i < length edges.now) }
{
    edges.iter().position(|x| x.cost > 1_000_000)
}

fn first_without_demand(edges: &[Edge]) -> Option<usize>
    ensures value { result ≡ position has_no_demand edges.now }
    ensures bound { IfSome result (λ i. i < length edges.now) }
{
    edges.iter().position(|x| x.demand == 0)
}

fn first_overweight(capacity: u64, edges: &[Edge]) -> Option<usize>
    ensures value { result ≡ position (is_overweight capacity) edges.now }
    ensures bound { IfSome result (λ i. i < length edges.now) }
{
    edges.iter().position(|x| x.demand > capacity)
}

fn first_dear(edges: &[Edge]) -> Option<usize>
    ensures value { result ≡ position has_dear_service edges.now }
    ensures bound { IfSome result (λ i. i < length edges.now) }
{
    edges.iter().position(|x| x.service > 1_000_000)
}

fn first_cut_off(marks: &[bool], edges: &[Edge]) -> Option<usize>
    requires { All (λ x. x.u < length marks.now) edges.now }
    ensures value { result ≡ position (is_cut_off marks.now) edges.now }
    ensures bound { IfSome result (λ i. i < length edges.now) }
{
    edges.iter().position(|x| !marks[x.u as usize])
}

impl Draft {
    ghost use Rattle.carp_base.specs.Drafts.{drafted};

    fn check_loops(&self) -> Result<(), InstanceFault>
        requires { IsClear (drafted self.now) 4 }
        ensures { MatchResult result (λ _. IsClear (drafted self.now) 5) (λ fault. IsFirstFault (drafted self.now) fault) }
    {
        match first_loop(&self.edges) {
            Some(i) => Err(InstanceFault::Loop(i as u64 + 1)),
            None => Ok(()),
        }
    }

    fn check_costs(&self) -> Result<(), InstanceFault>
        requires { IsClear (drafted self.now) 5 }
        ensures { MatchResult result (λ _. IsClear (drafted self.now) 6) (λ fault. IsFirstFault (drafted self.now) fault) }
    {
        match first_costly(&self.edges) {
            Some(i) => Err(InstanceFault::CostTooLarge(i as u64 + 1)),
            None => Ok(()),
        }
    }

    fn check_capacity(&self) -> Result<(), InstanceFault>
        requires { IsClear (drafted self.now) 6 }
        ensures { MatchResult result (λ _. IsClear (drafted self.now) 7) (λ fault. IsFirstFault (drafted self.now) fault) }
    {
        if self.capacity == 0 || self.capacity > 30_000 {
            Err(InstanceFault::CapacityOutOfRange(self.capacity))
        } else {
            Ok(())
        }
    }

    fn check_demands(&self) -> Result<(), InstanceFault>
        requires { IsClear (drafted self.now) 7 }
        ensures { MatchResult result (λ _. IsClear (drafted self.now) 8) (λ fault. IsFirstFault (drafted self.now) fault) }
    {
        match first_without_demand(&self.edges[..self.required]) {
            Some(i) => Err(InstanceFault::ZeroDemand(i as u64 + 1)),
            None => Ok(()),
        }
    }

    fn check_weights(&self) -> Result<(), InstanceFault>
        requires { IsClear (drafted self.now) 8 }
        ensures { MatchResult result (λ _. IsClear (drafted self.now) 9) (λ fault. IsFirstFault (drafted self.now) fault) }
    {
        match first_overweight(self.capacity, &self.edges[..self.required]) {
            Some(i) => Err(InstanceFault::Overweight(i as u64 + 1)),
            None => Ok(()),
        }
    }

    fn check_depot(&self) -> Result<(), InstanceFault>
        requires { IsClear (drafted self.now) 9 }
        ensures { MatchResult result (λ _. IsClear (drafted self.now) 10) (λ fault. IsFirstFault (drafted self.now) fault) }
    {
        if self.depot == 0 || self.depot > self.vertices {
            Err(InstanceFault::DepotOutOfRange(self.depot))
        } else {
            Ok(())
        }
    }

    fn check_states(&self) -> Result<(), InstanceFault>
        requires { IsClear (drafted self.now) 10 }
        ensures { MatchResult result (λ _. IsClear (drafted self.now) 11) (λ fault. IsFirstFault (drafted self.now) fault) }
    {
        let states = 2 * self.required as u64 * (self.capacity + 1);
        if states > 24_000_000 {
            Err(InstanceFault::TooManyStates(states))
        } else {
            Ok(())
        }
    }

    /// Looks for the faults that need no search of the streets, from the loops to the number of states.
    pub(crate) fn check_numbers(&self) -> Result<(), InstanceFault>
        requires { IsClear (drafted self.now) 4 }
        ensures { MatchResult result (λ _. IsClear (drafted self.now) 11) (λ fault. IsFirstFault (drafted self.now) fault) }
    {
        self.check_loops()?;
        self.check_costs()?;
        self.check_capacity()?;
        self.check_demands()?;
        self.check_weights()?;
        self.check_depot()?;
        self.check_states()
    }

    /// Looks for a service that costs too much.
    pub(crate) fn check_services(&self) -> Result<(), InstanceFault>
        requires { IsClear (drafted self.now) 12 }
        ensures { MatchResult result (λ _. IsClear (drafted self.now) 13) (λ fault. IsFirstFault (drafted self.now) fault) }
    {
        match first_dear(&self.edges[..self.required]) {
            Some(i) => Err(InstanceFault::ServiceTooLarge(i as u64 + 1)),
            None => Ok(()),
        }
    }

    /// Looks for a required edge that no path leads to.
    pub(crate) fn check_reach(&self, alloc: Global) -> Result<(), Fail<InstanceFault>>
        requires { IsClear (drafted self.now) 11 }
        ensures reached { OnOk result (AreReached (drafted self.now)) }
        ensures clear { OnOk result (IsClear (drafted self.now) 12) }
        ensures refused { IfErr result (RefusesFirstFault (drafted self.now)) }
    {
        let marks = marks_reached(alloc, self)?;
        match first_cut_off(&marks, &self.edges[..self.required]) {
            Some(i) => Err(Fail::Refused(InstanceFault::Unreachable(i as u64 + 1))),
            None => Ok(()),
        }
    }
}
