//! Books that are released by a certificate.
ghost use Rattle.pb_base.specs.Answers.{Answers};
ghost use Rattle.release.specs.Certified.{release_of};

use crate::released::Released;
use book_text::{BookFault, read_book};
use derivation::{CertFault, check_cert};
use pb_base::{Body, Fail};
use std::alloc::Global;

/// Why a text and a certificate make no released book.
#[derive(Debug, Drop)]
pub enum FromFault {
    /// The text is no book's; this is its first fault.
    Text(BookFault),
    /// The text is a book's, and this is the first fault of the certificate for it.
    Cert(CertFault),
}

/// The released book of a text and a certificate, both kept as they are. Nothing is searched: the certificate is checked.
pub fn from_cert(alloc: Global, text: Body, cert: Body) -> Result<Released, Fail<FromFault>>
    ensures { Answers result (release_of text cert) }
{
    match read_book(alloc, text.as_slice()) {
        Ok(book) => match check_cert(alloc, &book, cert.as_slice()) {
            Ok(_) => Ok(Released::of(alloc, text, book, cert)?),
            Err(fail) => Err(fail.map(FromFault::Cert)),
        },
        Err(fail) => Err(fail.map(FromFault::Text)),
    }
}
