//! What a certificate is answered.

use book_model::LimitFault;

/// What an accepted certificate has: the number of its slices, which is the book's, and that of its `step` lines.
#[derive(Clone, Copy, Debug, PartialEq, Eq)]
pub struct Certified {
    pub slices: u32,
    pub steps: u64,
}

/// The first fault of a certificate, at a line counted from 1. Line 0 is the certificate as a whole.
#[derive(Clone, Copy, Debug, PartialEq, Eq)]
pub struct CertFault {
    pub line: u64,
    pub kind: CertKind,
}

/// What is wrong with a line of a certificate.
#[derive(Clone, Copy, Debug, PartialEq, Eq)]
pub enum CertKind {
    /// The line has not the form that may stand there, or the text ends before its end line.
    Syntax,
    /// The name or the number of slices is not the book's.
    WrongBook,
    /// There is no clause of this number.
    NoSuchStep,
    /// The running clause of a step lacks the literal, or the other clause lacks its complement.
    NoPivot,
    /// This question of the slice is left unclosed.
    NotClosed(u32),
    /// The set of this slice has a name that is no code or is repeated, or it is not good.
    BadSet(u32),
    /// A byte follows the end line.
    Trailing,
    /// The file is longer than may be read. Only who reads a file says so.
    TooLarge,
    /// The book exceeds a limit of certificates, whatever the text says.
    Limit(LimitFault),
}
