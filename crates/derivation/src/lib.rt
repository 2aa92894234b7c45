//! Certificates: that a book can be released, in a form that a second reader checks without a search.
#![tactic(auto)]

mod after;
mod check;
mod closing;
mod fault;
mod laws;
mod limits;
mod line;
mod pieces;
mod slice_proof;
mod stage;
mod word;
mod write;

pub use check::check_cert;
pub use closing::{Closing, ToClose, to_close};
pub use fault::{CertFault, CertKind, Certified};
pub use limits::slices_within;
pub use slice_proof::SliceProof;
pub use write::{begin_cert, end_cert, put_proof};
