// What price sets are proposed for.

use carp_base::{Allowed, Instance};
use road_network::Network;

/// An instance with its network, and the pairs that are not excluded.
#[derive(Clone, Copy)]
pub struct PricingProblem<'a> {
    pub inst: &'a Instance,
    pub net: &'a Network,
    pub allowed: &'a Allowed,
}
