//! An adviser that offers price sets of the linear program over shores.
//!
//! In the field: a cutting plane method on the one-index formulation, and the dual solution with which it
//! ends.
//!
//! If each service is paid at its cost, weights of shores show a bound if over each edge they sum to at most its cost.
//! The best such weights are those of a linear program over all shores (Belenguer and Benavent 2003). [`ShoreAdviser`]
//! solves it over some of them, and looks in rounds for shores that its solution leaves short. It only offers: the
//! pricing table says whether a set fits.
//!
//! - `adviser`: the adviser. `proposal`: the set that it offers.
//! - `rounds`: the program over the shores found so far, and when the search for more ends.
#![tactic(auto)]

mod adviser;
mod proposal;
mod rounds;

pub use adviser::ShoreAdviser;
