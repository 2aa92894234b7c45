//! Why a message asks for nothing.

/// Why a message asks for nothing that the desk can be asked. The first of these that holds is told.
#[derive(Clone, Copy, Debug, PartialEq, Eq)]
pub enum Denied {
    /// The path leads nowhere.
    NoPath,
    /// The path doesn't have this method.
    WrongMethod,
    /// The head doesn't name one caller.
    BadCaller,
    /// The body isn't of the form that the path and the method want.
    BadBody,
}
