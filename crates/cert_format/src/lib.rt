//! The text of a certificate, both ways, in whole and in pieces.
//!
//! In the field: proof logging, with a proof that is written and read.
//!
//! [`write_cert`] gives the one spelling of a certificate. [`CertReader`] takes a text in pieces, however it is cut,
//! and gives the head, each node, and the end. It keeps the head and no nodes. [`read_cert`] feeds it a whole text.
//! `cert_lines` defines what a text says, and the first fault of bytes that are no text. `specs/Good.antt` defines what
//! makes a certificate good for an instance, and [`good_is_proof`] says what a good one proves.
//!
//! - `cert`, `counting`: a certificate, its head, and the numbers of an instance.
//! - `writing`, `spelling`: a certificate as text.
//! - `reading`, `cert_reader`, `reader`: a whole text, and a text in pieces.
//! - `line`, `kind`, `items`, `groups`: one line, word by word.
//! - `judging`, `draft`: what is made of a whole line, and what the good lines say.
//! - `laws`: what is proved of all certificates.
#![tactic(auto)]

mod cert;
mod cert_reader;
mod counting;
mod draft;
mod groups;
mod items;
mod judging;
mod kind;
mod laws;
mod line;
mod reader;
mod reading;
mod spelling;
mod writing;

pub use cert::{Cert, CertHead};
pub use cert_lines::{CertFault, Counts, Item};
pub use cert_reader::CertReader;
pub use counting::counts_of;
pub use laws::{counts_are_in_range, counts_keep_good, good_is_proof, plans_are_on_edges};
pub use reading::read_cert;
pub use writing::write_cert;
