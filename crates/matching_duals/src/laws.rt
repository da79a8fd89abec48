// Laws over plain data, as functions whose contract is the law.
ghost use Rattle.matching_duals.specs.Laws.{JoinIsLowerBound, PlansMakeEven, ShoresBoundJoins};

use cut_pool::need_is_met;
use plan_model::{deadheads_are_on_crossing_edges, required_edges_are_served_once};

/// An odd number of required edges cross each of some sets of vertices, and over no edge the halves of the sets sum to
/// more than twice its cost. Then no deadheads that make every vertex even cost less than half of the halves of all
/// sets.
///
/// Such deadheads cross each of the sets an odd number of times with the required edges, so at least once, and pay over
/// each edge for the sets that it crosses (Edmonds and Johnson 1973).
pub fn shores_bound_joins()
    ensures { ShoresBoundJoins }
{}

/// The deadheads of a lawful plan make every vertex even, since its walks come to each vertex as often as they leave
/// it. So no lawful plan costs less than its services and the least cost of deadheads that make every vertex even.
pub fn plans_pay_joins()
    ensures even { PlansMakeEven }
    ensures bound { JoinIsLowerBound }
{
    need_is_met();
    deadheads_are_on_crossing_edges();
    required_edges_are_served_once();
}
