// The numbers of an instance.
ghost use Rattle.std.specs.Prelude.{◌≡◌};
ghost use Rattle.carp_base.specs.Problem.{IsValid};
ghost use Rattle.cert_format.specs.Good.{counts_in};

use carp_base::Instance;
use cert_lines::Counts;

/// The numbers of an instance, as a certificate states them. It takes no memory, and time in proportion to the required
/// edges.
pub fn counts_of(inst: &Instance) -> Counts
    ensures counts { result ≡ counts_in inst.now }
    ensures valid { IsValid inst.now }
{
    Counts {
        vertices: u64::from(inst.vertices()),
        edges: u64::from(inst.edge_count()),
        required: u64::from(inst.required()),
        capacity: inst.capacity(),
        demand: inst.total_demand(),
    }
}
