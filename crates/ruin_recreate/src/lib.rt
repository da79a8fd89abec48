//! Ruin and recreate on plans of an instance, over a board of its services.
//!
//! In the field: large neighbourhood search by ruin and recreate, accepted by simulated annealing.
//!
//! A [`Board`] has the numbers of an instance as flat tables for a search over stops, the depot and the services of its
//! required edges: [`board_of`] makes it. [`ruin_and_recreate`] looks for a cheaper sequence of stops. It is simulated
//! annealing (Kirkpatrick, Gelatt and Vecchi 1983) over steps of ruin and recreate (Schrimpf, Schneider, Stamm-Wilbrandt
//! and Dueck 2000). A step takes strings of services near one another out of their tours (slack induction by string
//! removals, Christiaens and Vanden Berghe 2020). It puts them back in an order that is drawn, or by regret insertion
//! (Potvin and Rousseau 1993; Ropke and Pisinger 2006).
//!
//! - `board`, `tables`: the board, and how it is made.
//! - `sequences`: tours one after another, as connections between stops.
//! - `neighbours`, `ruining`: edges near one another, and strings of services that are taken out.
//! - `recreating`, `ordering`, `regretting`: where a service is put back, in what drawn order, and in the order of regret.
//! - `pricing`, `annealing`, `restarting`: what loads above the room cost, which steps are accepted, and how many there are.
#![tactic(auto)]

mod annealing;
mod board;
mod draws;
mod examples;
mod neighbours;
mod ordering;
mod pricing;
mod recreating;
mod regretting;
mod restarting;
mod ruining;
mod sequences;
mod tables;

pub use board::Board;
pub use restarting::ruin_and_recreate;
pub use tables::board_of;
