//! The texts that are printed: the report of a certificate, the street sheet of a plan, the lines for refused input,
//! and the parts that other answers share (a route, the tours, the line of a gap).
//!
//! [`push_number`], [`push_words`] and [`push_line`] add to the end of a growing text. A blank before a number is part
//! of the words before it. Their error says only that there was not enough memory. It does not say what the text then
//! holds. They take time in proportion to what they add.
//!
//! [`instance_fault_line`], [`certificate_fault_line`], [`edit_fault_line`] and [`rejection_line`] spell why an input
//! is refused. The words stand in `specs/RefusalLines.antt`. A line is ASCII and ends in LF. Numbers are plain
//! decimals, with a `-` if they are negative.
//!
//! - `text`: numbers in a growing text.
//! - `reporting`, `sheets`: the report with its parts, and the street sheet.
//! - `lines`: the lines for refused input.
#![tactic(auto)]

mod lines;
mod reporting;
mod sheets;
mod text;

pub use lines::{certificate_fault_line, edit_fault_line, instance_fault_line, rejection_line};
pub use reporting::{push_gap, push_route, push_tours, report};
pub use sheets::sheet;
pub use text::{push_line, push_number, push_words};
