//! The least cost of making every vertex even, and sets of vertices that show it (Edmonds and Johnson 1973).
//!
//! In the field: a least T-join, with a dual solution of odd cuts (Edmonds and Johnson 1973).
//!
//! The deadheads of a lawful plan, with the required edges, end an even number of times at each vertex. So each plan
//! pays at least the least cost of deadheads that do so ([`plans_pay_joins`]). [`join_bound`] gives this cost, such
//! deadheads, and sets of vertices with weights that show that no others cost less ([`shores_bound_joins`]).
//!
//! Why it is right, in outline. A vertex is odd if an odd number of required edges ends there.
//!
//! 1. The odd vertices are even in number, and the depot reaches them all. They are matched at least cost under their
//!    distances. A path meets each vertex between its ends an even number of times. So the paths of all matched pairs,
//!    joined by parity, make every vertex even, at no more than the matching's cost.
//! 2. The matching comes with odd sets, nested or disjoint. Their weights, in halves, sum to at most twice the distance
//!    for each pair that they separate, and in all to twice the matching's cost. The depth of a vertex x for a set of
//!    weight w is the least over its members v of twice the distance from v to x, less the weights of the smaller sets
//!    that hold v. It is cut off at 0 and at w. The levels of the set are, for each whole t below w, the vertices of
//!    depth at most t.
//! 3. Of the odd vertices a level holds just the members of its set. A member has depth 0. From an odd vertex u
//!    outside, the set and the smaller sets round u and round a member v all separate u from v. So twice their distance
//!    is at least w and the weights round both, and u has depth w. So an odd number of required edges crosses each
//!    level.
//! 4. Each vertex that lies in some level has an anchor. This is an odd vertex v such that the weights round v are at
//!    least twice the distance of v and the depth that is left up to w, over all sets. By induction over the sets, from
//!    the smallest, the anchors of the two ends show that the depths of the ends differ by at most twice the cost of
//!    the edge, over all sets together. So many levels cross the edge.
//! 5. Levels between two neighbouring depths are equal, and are taken together. Each is taken on the side without the
//!    depot, which has the same border. The sides are nested or disjoint again, so at most 2 n - 1 of them differ for n
//!    vertices.
//! 6. Deadheads that make every vertex even cross each odd set at least once, so they cost at least half of the
//!    weights. These are twice the matching's cost. So the deadheads of step 1 are least, and cost just half of the
//!    weights.
//!
//! - `ground`: the odd vertices, and the distances between all vertices.
//! - `pairing`, `joining`: the costs of the pairs, and the paths between matched pairs.
//! - `setting`, `depth_rows`, `runs`, `merging`: set by set from the smallest, the depths of all vertices, the sides of
//!   its levels, and equal sides taken together.
#![tactic(auto)]

mod bound;
mod depth_rows;
mod examples;
mod ground;
mod joining;
mod laws;
mod merging;
mod pairing;
mod runs;
mod setting;

pub use bound::{JoinBound, join_bound};
pub use laws::{plans_pay_joins, shores_bound_joins};
