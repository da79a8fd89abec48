//! The linear program over shores, in whole numbers.
//!
//! In the field: the dual of the linear program of the one-index formulation, restricted to a pool of edge
//! cutset constraints.
//!
//! A [`Program`] maximises what some shores demand times their weights. Over each edge the weights of the shores that
//! cross it sum to at most its cost. Its multipliers are deadheads over the edges, from which further shores are found.
//! It is a simplex tableau in fixed point (Dantzig 1951), so its corner is not exact. But the weights that it gives
//! pack, and whoever uses them needs no more.
//!
//! - `fixed`: arithmetic in fixed point.
//! - `tableau`, `ratio`, `pivoting`: the tableau, which of its rows leaves, and the step from one corner to the next.
//! - `cuts`, `adding`, `trimming`: the shores with what is demanded over them, how one comes and how some go.
//! - `reading`: the deadheads and weights of a corner.
//! - `rooms`, `packing`: what is left over the edges, and weights that are cut down and raised by it until they pack.
//! - `program`: the public calls.
#![tactic(auto)]

mod adding;
mod cuts;
mod examples;
mod fixed;
mod packing;
mod pivoting;
mod program;
mod ratio;
mod reading;
mod rooms;
mod tableau;
mod trimming;

pub use program::Program;
