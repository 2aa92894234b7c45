//! Drafts.

use crate::shared_text::SharedText;
use pb_base::{Body, Id};
use std::marker::Model;

/// A draft as it stands now.
#[derive(Drop)]
pub struct Draft {
    pub owner: Id,
    /// Counted from 1, one more with each change of the text.
    pub revision: u32,
    pub text: SharedText,
}

/// A draft that is to be kept. Its text goes into its row.
#[derive(Drop)]
pub(crate) struct NewDraft {
    pub owner: Id,
    pub revision: u32,
    pub text: Body,
}

impl Model for NewDraft {
    ghost use Rattle.order_desk.specs.StateCode.{draft_code};
    ghost use Rattle.order_desk.specs.declared.draft.Draft.{Draft};

    ghost Value = { Draft };

    ghost coded = { draft_code };

    ghost view = { λ d. record { owner = d.owner; revision = d.revision; text = d.text } };
}
