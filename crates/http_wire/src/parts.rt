//! What counts of a head, as it lies in its block.

use crate::fields::Fields;
use std::marker::Model;

/// What counts of a head, as it lies in its block: the start line and the fields.
#[derive(Drop)]
pub struct Parts<'a> {
    pub method: &'a [u8],
    pub target: &'a [u8],
    pub minor: u8,
    pub fields: Fields<'a>,
}

impl<'a> Model for Parts<'a> {
    ghost use Rattle.http_wire.specs.Parts.{HeadParts};

    ghost Value = { HeadParts };

    ghost view = { λ p.
        record { method = p.method.now; target = p.target.now; minor = p.minor; fields = p.fields } };
}
