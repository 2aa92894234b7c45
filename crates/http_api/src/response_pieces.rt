//! A response in two pieces.
ghost use Rattle.std.specs.Prelude.{◌≡◌, ◌++◌};

use pb_base::Body;
use std::alloc::Global;
use std::marker::Model;

/// A response: its head and the line of its body, and what stands behind the line, which a reply had and nobody copied. A contract
/// sees its bytes.
#[derive(Drop)]
pub struct Response {
    front: Body,
    rest: Body,
}

impl Model for Response {
    ghost use Rattle.std.specs.Prelude.{List, ℕ, ◌++◌};

    ghost Value = { List ℕ };

    ghost view = { λ r. r.front ++ r.rest };
}

impl Response {
    /// The response of these pieces.
    pub(crate) fn of(front: Body, rest: Body) -> Response
        ensures { result ≡ front ++ rest }
    {
        Response { front, rest }
    }

    /// The response that is these bytes.
    pub fn whole(alloc: Global, bytes: Body) -> Response
        ensures { result ≡ bytes }
    {
        Response {
            front: bytes,
            rest: Body::new(alloc),
        }
    }

    /// Its bytes, the second piece behind the first.
    pub fn pieces(&self) -> (&[u8], &[u8])
        ensures { result.0.now ++ result.1.now ≡ self.now }
    {
        (self.front.as_slice(), self.rest.as_slice())
    }
}
