// Laws over plans, as functions whose contract is the law.
ghost use Rattle.task_tours.specs.ShortLaws.{ShortPlansAreAllowed, ShortPlansCostLittle};

/// A lawful plan of at most 2,000,000 steps costs at most 2 * 10^12, since a step costs at most 1,000,000.
pub fn short_plans_cost_little()
    ensures { ShortPlansCostLittle }
{}

/// A short plan is within the limits of a certificate, since a valid instance has at most 600 required edges.
pub fn short_plans_are_allowed()
    ensures { ShortPlansAreAllowed }
{}
