//! The lines that tell what a certificate is answered.
ghost use Rattle.std.specs.Prelude.{◌≡◌, ◌++◌, IfOk, OnOk};
ghost use Rattle.book_commands.specs.CertText.{cert_number, limit_behind, cert_detail, cert_fault_text, verified_text};

use book_model::{Book, LimitFault};
use derivation::{CertFault, CertKind, Certified};
use desk_words::put_limit;
use pb_base::{Body, Memory, Text, put_number};
use std::alloc::Global;

/// `verified NAME slices S steps N`.
pub fn verified_text(alloc: Global, book: &Book, certified: Certified) -> Result<Body, Memory>
    ensures { IfOk result (λ text. text ≡ verified_text book.now certified) }
{
    let mut text = Text::new(alloc);
    put_verified(&mut text, book, certified)?;
    Ok(text.into_body())
}

fn put_verified(text: &mut Text, book: &Book, certified: Certified) -> Result<(), Memory>
    ensures { OnOk result (text.new ≡ text.old ++ verified_text book.now certified) }
{
    text.put(b"verified ")?;
    text.put(book.name().bytes())?;
    text.put(b" slices")?;
    put_number(text, u64::from(certified.slices))?;
    text.put(b" steps")?;
    put_number(text, certified.steps)?;
    text.put(b"\n")
}

/// `certificate fault LINE KIND`, and behind it what the kind has to add.
pub fn cert_fault_text(alloc: Global, fault: &CertFault) -> Result<Body, Memory>
    ensures { IfOk result (λ text. text ≡ cert_fault_text fault.now) }
{
    let mut text = Text::new(alloc);
    put_cert_fault(&mut text, fault)?;
    Ok(text.into_body())
}

fn put_cert_fault(text: &mut Text, fault: &CertFault) -> Result<(), Memory>
    ensures { OnOk result (text.new ≡ text.old ++ cert_fault_text fault.now) }
{
    text.put(b"certificate fault")?;
    put_number(text, fault.line)?;
    put_number(text, cert_number(&fault.kind))?;
    put_cert_detail(text, &fault.kind)?;
    text.put(b"\n")
}

fn cert_number(kind: &CertKind) -> u64
    ensures { result ≡ cert_number kind.now }
{
    match kind {
        CertKind::Syntax => 1,
        CertKind::WrongBook => 2,
        CertKind::NoSuchStep => 3,
        CertKind::NoPivot => 4,
        CertKind::NotClosed(_) => 5,
        CertKind::BadSet(_) => 6,
        CertKind::Trailing => 7,
        CertKind::TooLarge => 8,
        CertKind::Limit(_) => 9,
    }
}

fn put_cert_detail(text: &mut Text, kind: &CertKind) -> Result<(), Memory>
    ensures { OnOk result (text.new ≡ text.old ++ cert_detail kind.now) }
{
    match kind {
        CertKind::NotClosed(question) => put_number(text, u64::from(*question)),
        CertKind::BadSet(slice) => put_number(text, u64::from(*slice)),
        CertKind::Limit(fault) => put_limit_behind(text, fault),
        _ => Ok(()),
    }
}

// A space and the limit that checking the book exceeds.
fn put_limit_behind(text: &mut Text, fault: &LimitFault) -> Result<(), Memory>
    ensures { OnOk result (text.new ≡ text.old ++ limit_behind fault.now) }
{
    text.put(b" ")?;
    put_limit(text, fault)
}
