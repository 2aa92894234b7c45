//! A gate at the judging: whoever answers calls says there that the work of a call begins.

use pb_base::Id;

/// Is told of each work that is done outside a turn. It changes nothing of the run; a gate of a test may wait there, and keep
/// notes of its own.
pub trait Gate {
    /// A draft of the caller is about to be checked, or an order of the caller to be judged.
    fn judging(&self, caller: &Id);
}

/// The gate that is always open.
#[derive(Clone, Copy, Debug)]
pub struct NoGate;

impl Gate for NoGate {
    fn judging(&self, _: &Id) {}
}
