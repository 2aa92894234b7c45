//! Released books: a type that holds no book that can't be released.
#![tactic(auto)]

mod accepting;
mod certified;
mod judging;
mod orders;
mod released;

pub use accepting::accepts;
pub use certified::{FromFault, from_cert};
pub use judging::{Judged, judge};
pub use orders::order_laws;
pub use released::Released;
