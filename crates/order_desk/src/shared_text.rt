//! Drafts' texts that several hold.
ghost use Rattle.std.specs.Prelude.{◌≡◌, IfOk};

use keeper::DraftRow;
use pb_base::{Body, Memory};
use std::alloc::Global;
use std::marker::Model;
use std::sync::Arc;

/// The text of a draft in memory that the desk shares with those who read it. It stands in the draft's row, so it is not
/// copied for that either.
#[derive(Drop)]
pub struct SharedText {
    row: Arc<DraftRow>,
}

impl Model for SharedText {
    ghost use Rattle.std.specs.Prelude.{List, ℕ};

    ghost Value = { List ℕ };

    ghost view = { λ s. s.row.value.text };
}

impl SharedText {
    /// The text of a row.
    pub(crate) fn of(row: Arc<DraftRow>) -> SharedText
        ensures { result ≡ row.value.text }
    {
        SharedText { row }
    }

    /// Its bytes.
    pub fn as_slice(&self) -> &[u8]
        ensures { result.now ≡ self.now }
    {
        self.row.text.as_slice()
    }

    /// The text as a body of its own.
    pub fn copy(&self, alloc: Global) -> Result<Body, Memory>
        ensures { IfOk result (λ text. text ≡ self.now) }
    {
        self.row.text.copy(alloc)
    }

    /// A further holder of the same text. Nothing is copied.
    pub fn share(&self) -> Result<SharedText, Memory>
        ensures { IfOk result (λ text. text ≡ self.now) }
    {
        let row = self.row.clone()?;
        Ok(SharedText { row })
    }
}
