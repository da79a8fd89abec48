// A certificate, and all of it except its nodes.
use branch_rules::{PriceSet, Tree};
use cert_lines::Counts;
use cut_pool::ShorePool;
use plan_model::Plan;

/// A plan and a lower bound, with what is to show the bound. A `Cert` need not be good, and it may be one that cannot
/// be spelled.
#[derive(Drop)]
pub struct Cert {
    /// The cost of the plan, as it is stated.
    pub cost: u64,
    /// The lower bound, as it is stated.
    pub bound: u64,
    /// The tours.
    pub plan: Plan,
    /// The shores on which the price sets have weights and the tree has cuts.
    pub shores: ShorePool,
    /// The price sets that leaves name, from 1.
    pub sets: Vec<PriceSet>,
    /// The nodes of the tree, in preorder.
    pub tree: Tree,
    /// The numbers of the instance. A text of version 2 or 4 has them, and one of version 1 does not.
    pub counts: Option<Counts>,
}

/// A certificate without its nodes: what stands before the first of them.
#[derive(Drop)]
pub struct CertHead {
    /// The cost of the plan, as it is stated.
    pub cost: u64,
    /// The lower bound, as it is stated.
    pub bound: u64,
    /// The tours.
    pub plan: Plan,
    /// The shores.
    pub shores: ShorePool,
    /// The price sets.
    pub sets: Vec<PriceSet>,
    /// How many nodes follow, as it is stated: 1 to 2,097,153 if a reader gives it.
    pub nodes: u64,
    /// The numbers of the instance, if the text has them.
    pub counts: Option<Counts>,
}
