//! Whether a certificate is good for an instance, with the first reason if it is not.
//!
//! In the field: the verifier of a proof log, as for integer programs (Cheung, Gleixner and Steffy 2017).
//!
//! [`check`] checks a certificate in memory, and [`check_stream`] one in a file, whose nodes it does not keep. A good
//! certificate is a proof, whoever made it: its plan is lawful and costs what it states, and no lawful plan costs less
//! than its bound. `specs/Good.antt` of `cert_format` defines what is good, and `specs/Reasons.antt` the first reason.
//!
//! - `checking`, `head`, `checker`, `leaves`: a whole certificate, what stands before its nodes, its nodes one after
//!   another, and what its leaves show.
//! - `streaming`, `stream`: a certificate in a file, and its text in pieces.
//! - `reason`, `claim`: the answer with its reasons, and what is checked against an instance.
//! - `laws`: what is proved of all certificates and reasons.
#![tactic(auto)]

mod checker;
mod checking;
mod claim;
mod examples;
mod head;
mod laws;
mod leaves;
mod reason;
mod stream;
mod streaming;

pub use checking::check;
pub use laws::{good_has_no_reason, reason_is_unique};
pub use reason::{Answer, Part, Reason};
pub use streaming::{Checked, StreamFault, check_stream};
