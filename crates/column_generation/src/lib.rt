//! Price sets that stabilized column generation over tours, shores and groups proposes.
//!
//! In the field: column generation with non-elementary routes for the capacitated arc routing problem, stabilized by a
//! box and by smoothing, with cuts on deadheads and on successive services.
//!
//! The prices of a price set are multipliers of a linear program: each required edge is served once, over each shore
//! there are as many deadheads as it needs, and in each group there are no more bonds than it has room for. Its columns
//! are deadheads and relaxed tours. A [`Generation`] solves it over the rows and columns found so far, and looks for
//! more. It only proposes: the pricing table says whether a set fits.
//!
//! Its multipliers stay in a box around the best point (Marsten, Hogan and Blankenship 1975). The table is filled for
//! the point halfway between the best one and the program's (Wentges 1997), which is made one that pays, and the tours
//! of the least values become columns. If the best point is near the program's, shores (`shore_search`) and groups
//! (`group_search`) that the program's solution violates become rows.
//!
//! A generation is for a leaf of a tree. It goes on for a child from what was kept of it ([`Kept`]), with rows for the
//! decisions of the child's branch, and without the tours that these exclude. All leaves share the rows and columns.
//! `leaf_programs` tells which leaf goes on from where.
//!
//! A solution of the program is sometimes a plan. Its tours are kept for whoever asks for them.
//!
//! - `tours`, `groups`: columns of tours, and groups with weights.
//! - `scale`, `master`: how great the numbers are, and all rows and columns known so far.
//! - `multipliers`: the point of a program. `offers`, `reply`: what the table tells of a point.
//! - `flows`, `effort`, `separation`: what the solution crosses and serves, and the rows that it violates.
//! - `boxstep`, `removal`, `pace`: the box, rows and columns that go, and when the generation ends.
//! - `cold_start`, `generation`: the start, and the loop.
//! - `size`, `limits`: instances that are small enough, and how far a generation goes.
//! - `proposal`: the best point as a price set, and when it is proposed. `numbers`: small arithmetic.
//! - `decision_rows`: rows of decisions, and tours that they forbid.
//! - `kept`, `warm_start`, `leaf_start`: what is kept of a generation, how another one goes on from it, and how one
//!   begins for a leaf.
//! - `trial`: what a child of the leaf comes to. `integral`: solutions that show a plan.
//! - `accessors`: what is told of a generation.
#![tactic(auto)]

mod accessors;
mod boxstep;
mod cold_start;
mod decision_rows;
mod effort;
mod flows;
mod generation;
mod groups;
mod integral;
mod kept;
mod leaf_start;
mod limits;
mod master;
mod multipliers;
mod numbers;
mod offers;
mod pace;
mod proposal;
mod removal;
mod reply;
mod scale;
mod separation;
mod size;
mod tours;
mod trial;
mod warm_start;

pub use decision_rows::may_be_near;
pub use flows::Solution;
pub use generation::Generation;
pub use kept::Kept;
pub use leaf_start::{adopted, begin, taken_up};
pub use proposal::enough_for;
pub use size::is_small;
