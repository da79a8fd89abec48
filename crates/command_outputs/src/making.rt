// Does a job.
ghost use Rattle.std.specs.Prelude.{◌≡◌, ◌≤◌, ◌+◌, ◌%◌, ◌^◌, All, EachIndex, map, slice_index, false, true, IfOk, OnOk};
ghost use Rattle.command_inputs.specs.Jobs.{IsSoundJob};
ghost use Rattle.command_outputs.specs.Made.{IsLent, IsMade, job_asks, job_seed};
ghost use Rattle.command_outputs.specs.Outputs.{output_in};

use crate::answers::{accept, keep_town, renew, spell_sheet};
use crate::delivery::Delivery;
use crate::drilling::drill;
use crate::editing::keep_edited;
use crate::fleets::count_fleet;
use crate::improving::improve_instance;
use crate::rounds::spell_round;
use crate::solving::solve_instance;
use carp_base::Memory;
use command_inputs::Job;
use leaf_adviser::Adviser;
use plan_model::Proposer;
use progress::Watch;
use std::alloc::Global;

/// Does a job. If it solves an instance or goes on from a certificate, the helpers aid it, and are seeded from the
/// job's seed on. All other jobs leave the helpers as they are.
///
/// The only error is want of memory. It takes the time of what the job asks for ([`carp_engine::solve`],
/// [`carp_engine::improve`], [`fleet_pack::pack`], [`cert_transfer::carry`]) and of the texts, all of which are in
/// memory at once.
pub fn make<'a, P: Proposer, A: Adviser, W: Watch>(
    alloc: Global,
    job: Job<'a>,
    helpers: &mut Vec<P>,
    advisers: &mut Vec<A>,
    watch: &mut W,
) -> Result<Delivery<'a>, Memory>
    requires { IsSoundJob job }
    ensures made { IfOk result (λ d. IsMade job.entry (map (λ helper. (P.tally helper).least) helpers.new.items) d.status (output_in d)) }
    ensures same { map P.id helpers.new.items ≡ map P.id helpers.old.items }
    ensures unasked { job_asks job.entry ≡ false → helpers.new.items ≡ helpers.old.items }
    ensures seeds { job_asks job.entry ≡ true → OnOk result (EachIndex helpers.new.items (λ k. slice_index (map P.seed helpers.new.items) k ≡ (job_seed job.entry + k) % 2 ^ 64)) }
    ensures asked { job_asks job.entry ≡ true → OnOk result (All (λ helper. 1 ≤ P.asked helper) helpers.new.items) }
    ensures fouls { job_asks job.entry ≡ true → OnOk result (All (λ helper. (P.tally helper).fouls ≤ 1) helpers.new.items) }
{
    match job {
        Job::Improve {
            inst,
            cert,
            improved,
            turns,
            seed,
        } => improve_instance(
            alloc, &inst, cert, improved, turns, seed, helpers, advisers, watch,
        ),
        other => make_lent(alloc, &other, helpers, advisers, watch),
    }
}

// Does a job that only reads what was read for it. Each arm of a function that owns the job would drop it.
fn make_lent<'a, P: Proposer, A: Adviser, W: Watch>(
    alloc: Global,
    job: &Job<'a>,
    helpers: &mut Vec<P>,
    advisers: &mut Vec<A>,
    watch: &mut W,
) -> Result<Delivery<'a>, Memory>
    requires sound { IsSoundJob job.now }
    requires lent { IsLent job.now }
    ensures made { IfOk result (λ d. IsMade job.now (map (λ helper. (P.tally helper).least) helpers.new.items) d.status (output_in d)) }
    ensures same { map P.id helpers.new.items ≡ map P.id helpers.old.items }
    ensures unasked { job_asks job.now ≡ false → helpers.new.items ≡ helpers.old.items }
    ensures seeds { job_asks job.now ≡ true → OnOk result (EachIndex helpers.new.items (λ k. slice_index (map P.seed helpers.new.items) k ≡ (job_seed job.now + k) % 2 ^ 64)) }
    ensures asked { job_asks job.now ≡ true → OnOk result (All (λ helper. 1 ≤ P.asked helper) helpers.new.items) }
    ensures fouls { job_asks job.now ≡ true → OnOk result (All (λ helper. (P.tally helper).fouls ≤ 1) helpers.new.items) }
{
    match job {
        Job::Solve {
            inst,
            cert,
            turns,
            seed,
        } => solve_instance(alloc, inst, cert, *turns, *seed, helpers, advisers, watch),
        Job::Check { cost, bound } => accept(alloc, *cost, *bound),
        Job::Sheet { inst, plan } => spell_sheet(alloc, inst, plan),
        Job::Make { file, seed } => keep_town(alloc, file, *seed),
        Job::Drill { turns, seed } => drill(alloc, *turns, *seed, helpers, advisers, watch),
        Job::Upgrade { cert, renewed } => renew(alloc, cert, renewed),
        Job::Postman { laid } => spell_round(alloc, laid),
        Job::Fleet { inst, turns } => count_fleet(alloc, inst, *turns),
        Job::Edit {
            read,
            edited,
            carried,
        } => keep_edited(alloc, read, edited, carried),
        Job::Improve { .. } => unreachable!(),
    }
}
