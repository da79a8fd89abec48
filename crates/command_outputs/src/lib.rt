//! What a command makes: texts to be kept, a text to be written, and a status.
//!
//! [`make`] does a job whose files are read, and gives a [`Delivery`]. It keeps and writes nothing, so that all of it
//! can be built before anything is kept or written.
//!
//! - `making`: which function makes what. `delivery`: what is made.
//! - `solving`, `drilling`: instances that are solved, and how what was found is told.
//! - `fleets`: a count of vehicles. `rounds`: a walk of the postman.
//! - `improving`: a certificate that is gone on from.
//! - `editing`: a certificate that is carried over.
//! - `answers`: what the other commands make.
#![tactic(auto)]

mod answers;
mod delivery;
mod drilling;
mod editing;
mod fleets;
mod improving;
mod making;
mod rounds;
mod solving;

pub use delivery::{Delivery, Kept};
pub use making::make;
