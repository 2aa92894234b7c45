//! Calls that read a book. Its text and its certificate are copied outside the turn.
ghost use Rattle.std.specs.Prelude.{◌≡◌, IfOk};
ghost use Rattle.answering.specs.Answers.{cert_shown, showing, text_shown};

use crate::asked::ask_book;
use crate::turns::Turns;
use desk_words::Reply;
use pb_base::{Body, Memory};
use std::alloc::Global;

/// Reads the text of a book.
pub(crate) fn read_book<T: Turns>(alloc: Global, turns: &mut T, number: u32) -> Reply
    ensures { showing number text_shown (T.hand turns.old) result (T.hand turns.new) }
{
    match ask_book(turns, number) {
        Ok(book) => match copied(alloc, book.released().text()) {
            Ok(text) => Reply::Raw(text),
            Err(Memory) => Reply::Memory,
        },
        Err(reply) => reply,
    }
}

/// Reads the certificate of a book.
pub(crate) fn read_cert<T: Turns>(alloc: Global, turns: &mut T, number: u32) -> Reply
    ensures { showing number cert_shown (T.hand turns.old) result (T.hand turns.new) }
{
    match ask_book(turns, number) {
        Ok(book) => match copied(alloc, book.released().cert()) {
            Ok(cert) => Reply::Cert(cert),
            Err(Memory) => Reply::Memory,
        },
        Err(reply) => reply,
    }
}

fn copied(alloc: Global, bytes: &[u8]) -> Result<Body, Memory>
    ensures { IfOk result (λ body. body ≡ bytes.now) }
{
    let bytes = Vec::from_slice(alloc, bytes)?;
    Ok(Body::of(bytes))
}
