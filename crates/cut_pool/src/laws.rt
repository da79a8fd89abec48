// A law over all lawful plans.
ghost use Rattle.cut_pool.specs.Laws.{NeedIsMet, ShoreNeedIsMet};

use plan_model::required_edges_are_served_once;

/// Every lawful plan has at least as many deadheads over a set of vertices without the depot as the set needs. Their
/// number is even exactly if the number of required edges over the set is.
pub fn need_is_met()
    ensures sets { NeedIsMet }
    ensures shores { ShoreNeedIsMet }
{
    required_edges_are_served_once();
}
