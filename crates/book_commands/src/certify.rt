//! Checks a certificate against the text of a book.
ghost use Rattle.std.specs.Prelude.{◌≡◌, IfOk};
ghost use Rattle.std.specs.Option.{option_map};
ghost use Rattle.book_text.specs.BookText.{book_of};
ghost use Rattle.derivation.specs.Certificate.{cert_answer};
ghost use Rattle.pb_outside.specs.Files.{FailsToRead};
ghost use Rattle.book_commands.specs.RunReply.{cert_fault_reply, certified_reply, content_reply};
ghost use Rattle.book_commands.specs.Promise.{ReadsFiles};
ghost use Rattle.book_commands.specs.Verify.{RepliesToFile, RepliesToVerify, FailsAtCertificate};

use crate::cert_text::{cert_fault_text, verified_text};
use crate::judge::book_fault_reply;
use crate::log::Note;
use crate::run_reply::RunReply;
use crate::run_status::RunStatus;
use book_model::Book;
use book_text::read_book;
use command_words::FileName;
use derivation::{CertFault, CertKind, check_cert};
use pb_base::limits::MOST_CERT_BYTES;
use pb_base::{Fail, Memory};
use pb_outside::{Files, OutError};
use std::alloc::Global;

/// What the check of the certificate in this file is answered. The book's text is read first, and where it has a fault
/// the file is left unread.
pub fn verify_reply<F: Files>(
    alloc: Global,
    text: &[u8],
    file: &FileName,
    files: &mut F,
) -> Result<RunReply, OutError>
    ensures reply { let book = book_of text.now in
        IfOk result (RepliesToVerify book file.now (F.told files.old) (F.told files.new)) }
    ensures cause { let fails = FailsAtCertificate file.now text.now (F.told files.old) (F.told files.new) in
        result ≡ Err OutError.Failed → fails }
    ensures kept { ReadsFiles (F.told files.old) (F.told files.new) }
{
    match read_book(alloc, text) {
        Ok(book) => file_reply(alloc, &book, file, files),
        Err(Fail::Refused(fault)) => Ok(book_fault_reply(alloc, fault)?),
        Err(Fail::Memory) => Err(OutError::Memory),
    }
}

fn file_reply<F: Files>(
    alloc: Global,
    book: &Book,
    file: &FileName,
    files: &mut F,
) -> Result<RunReply, OutError>
    ensures reply { IfOk result (RepliesToFile book.now file.now (F.told files.old) (F.told files.new)) }
    ensures cause { let fails = FailsToRead file.now (F.told files.old) (F.told files.new) in
        result ≡ Err OutError.Failed → fails }
    ensures kept { ReadsFiles (F.told files.old) (F.told files.new) }
{
    match files.read(alloc, file.as_str(), MOST_CERT_BYTES) {
        Ok(content) => Ok(content_reply(alloc, book, content)?),
        Err(error) => Err(error),
    }
}

fn content_reply(alloc: Global, book: &Book, content: Option<Vec<u8>>) -> Result<RunReply, Memory>
    ensures { let text = option_map (λ bytes. bytes.items) content in
        IfOk result (λ reply. reply ≡ content_reply book.now text) }
{
    match content {
        Some(text) => certified_reply(alloc, book, &text),
        None => cert_fault_reply(
            alloc,
            CertFault {
                line: 0,
                kind: CertKind::TooLarge,
            },
        ),
    }
}

fn certified_reply(alloc: Global, book: &Book, text: &[u8]) -> Result<RunReply, Memory>
    ensures { IfOk result (λ reply. reply ≡ certified_reply book.now (cert_answer book.now text.now)) }
{
    match check_cert(alloc, book, text) {
        Ok(certified) => {
            let text = verified_text(alloc, book, certified)?;
            Ok(RunReply::plain(alloc, text, RunStatus::Done))
        }
        Err(Fail::Refused(fault)) => cert_fault_reply(alloc, fault),
        Err(Fail::Memory) => Err(Memory),
    }
}

fn cert_fault_reply(alloc: Global, fault: CertFault) -> Result<RunReply, Memory>
    ensures { IfOk result (λ reply. reply ≡ cert_fault_reply fault) }
{
    let text = cert_fault_text(alloc, &fault)?;
    RunReply::noted(alloc, text, RunStatus::BadCertificate, Note::Cert(fault))
}
