//! Connections.

use crate::{Sink, Source};

/// One connection: bytes come in and go out. Faults of reading and of writing are counted apart.
pub trait Link: Source + Sink {}
