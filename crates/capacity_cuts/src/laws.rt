// Laws over plain data, as functions whose contract is the law.
ghost use Rattle.capacity_cuts.specs.Laws.{CutIsViolation, LeastCutIsMostViolated, NetworkIsFine, ShellsPack, ShellsWeighTheirNeeds};

use deadhead_paths::least_prices_are_there;
use edge_components::equal_sets_have_one_border;

/// The room of a cut is a constant less the violation of its side.
///
/// The touched demand of a set is half the demand met at its vertices plus half the demand of the edges over it. The
/// network has an arc from the source to each vertex v, of room `unit` times the demand met at v. It has arcs to and
/// fro over each edge, of room `unit * (Q - demand) + Q * x` if the edge is required, and else of room `Q * x`. A cut
/// between the source and the depot has the room `2 * unit * T` less the violation of its side times `Q * unit`. No
/// room is negative, since no required demand is above the capacity.
pub fn cut_is_violation()
    ensures { CutIsViolation }
{}

/// The side of a least cut is violated most.
pub fn least_cut_is_most_violated()
    ensures { LeastCutIsMostViolated }
{
    equal_sets_have_one_border();
}

/// The network is within the limits of a flow.
pub fn network_is_fine()
    ensures { NetworkIsFine }
{}

/// The shells weigh no more over each edge than its cost, and their needs, each times its weight, add up to the needs of all
/// level sets. With services at cost they show the floor Shell (`dual_master::shell_prices`).
pub fn shells_are_duals()
    ensures pack { ShellsPack }
    ensures weigh { ShellsWeighTheirNeeds }
{
    equal_sets_have_one_border();
    least_prices_are_there();
}
