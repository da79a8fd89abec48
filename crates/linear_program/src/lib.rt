//! A linear program whose rows and columns come and go, in whole numbers.
//!
//! In the field: the revised simplex method with an explicit inverse (Dantzig and Orchard-Hays 1954), as a primal and
//! as a dual method (Lemke 1954).
//!
//! [`Store`] holds rows and columns that many programs share. A [`Program`] takes some of them in use, and looks for
//! multipliers of its rows at which no column in use has a reduced cost below 0. It works in fixed point, so what it
//! finds is a proposal. Whoever uses it judges it anew.
//!
//! - `fixed`, `ids`: numbers in fixed point, and the numbers of rows and columns.
//! - `store`: the store of rows and columns.
//! - `selection`, `costs`: what a program has in use, and what its variables cost.
//! - `basis`, `workspace`: the basis with its inverse, and lists that the steps work in.
//! - `direction`, `pivoting`: a column through the inverse, and the step from one basis to the next.
//! - `refreshing`, `rebuilding`: activities and multipliers from the inverse, and the inverse from the basis.
//! - `checking`: whether a basis still gives what its rows demand.
//! - `shortlist`, `entering`, `leaving`, `primal`: the primal method.
//! - `dual_leaving`, `dual_entering`, `dual`: the dual method.
//! - `rows`, `trimming`: rows that come and go, and columns that go.
//! - `solving`, `program`: both methods in turn, and the public calls.
#![tactic(auto)]

mod basis;
mod checking;
mod costs;
mod direction;
mod dual;
mod dual_entering;
mod dual_leaving;
mod entering;
mod fixed;
mod ids;
mod leaving;
mod pivoting;
mod primal;
mod program;
mod rebuilding;
mod refreshing;
mod rows;
mod selection;
mod shortlist;
mod solving;
mod store;
mod trimming;
mod workspace;

pub use ids::{ColumnId, RowId};
pub use program::{Basic, Caps, Program, Range};
pub use selection::Variable;
pub use store::{Entry, RowBounds, Store};
