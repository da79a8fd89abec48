// Laws over all plans, as functions whose contract is the law.
ghost use Rattle.plan_model.specs.Laws.{RequiredCostIsLeast, ServedOnceByNumber, ServedOnceByEdge, ServedByOneStep, DeadheadsByEdge, VerdictIsUnique, LawfulVerdictIsExact, FailuresAreComplete};

/// No lawful plan costs less than it costs to serve each required edge once.
pub fn required_cost_is_least()
    ensures { RequiredCostIsLeast }
{}

/// Just one step of a lawful plan serves a required edge. So what the services sum to, read off the edges or off their
/// numbers, is the sum over the required edges.
pub fn required_edges_are_served_once()
    ensures by_number { ServedOnceByNumber }
    ensures by_edge { ServedOnceByEdge }
    ensures one_step { ServedByOneStep }
{}

/// The deadheads of a plan over a set of vertices are the deadheads on the edges of the instance that cross the set. The
/// plan need not be lawful.
pub fn deadheads_are_on_crossing_edges()
    ensures { DeadheadsByEdge }
{}

/// A plan has at most one verdict. The verdict is `Lawful` exactly if the plan is lawful. Something is wrong with every
/// other plan.
pub fn verdicts_are_exact()
    ensures unique { VerdictIsUnique }
    ensures lawful { LawfulVerdictIsExact }
    ensures complete { FailuresAreComplete }
{}
