//! A least closed walk from the depot that serves each required edge, for one vehicle without a limit. This is the
//! rural postman problem (Eiselt, Gendreau and Laporte 1995), with a depot that the walk starts at, and a cost of its
//! own for each service.
//!
//! If the required edges hang together with the depot, [`postman`] finds the least walk exactly. Deadheads of least
//! cost make every vertex even (Edmonds and Johnson 1973). Then a circuit goes over the required edges and those of the
//! deadheads that it reaches.
//!
//! - `joined`: whether the required edges hang together with the depot.
//! - `trail`, `circuit`: a circuit over required edges and deadheads (Hierholzer 1873).
//! - `round`: the walk with its cost, and the sets of vertices that show that none costs less.
//! - `laws`: what is proved of all such walks.
#![tactic(auto)]

mod circuit;
mod examples;
mod fault;
mod joined;
mod laws;
mod round;
mod trail;

pub use fault::PostmanFault;
pub use laws::rounds_pay_joins;
pub use round::{Round, postman};
