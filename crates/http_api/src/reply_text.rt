//! The body of a reply's response: a line, and what stands behind it.
ghost use Rattle.std.specs.Prelude.{◌≡◌, ◌++◌, ◌∷◌, OnOk, [], codes};
ghost use Rattle.pb_base.specs.Lines.{line, number_behind};
ghost use Rattle.http_api.specs.ReplyText.{full_line, line_of, missing_line, rest_of};
ghost use Rattle.desk_words.specs.declared.reply.Reply.{Reply};

use desk_words::{FullOf, Missing, Reply, put_book_fault, put_limit_fault, put_order_fault};
use pb_base::{Body, Id, Memory, Text, put_number};
use std::alloc::Global;

/// Puts the line of a reply, where it has one.
pub fn put_line(text: &mut Text, reply: &Reply) -> Result<(), Memory>
    ensures { OnOk result (text.new ≡ text.old ++ line_of reply.now) }
{
    match reply {
        Reply::Kept { draft, revision } => put_kept(text, draft, *revision),
        Reply::Given { draft, to } => put_given(text, draft, to),
        Reply::OwnerIs { owner, revision } => put_owner(text, owner, *revision),
        Reply::BookIs { number, .. } => put_count(text, b"book", *number),
        Reply::OrderIs { book, day, .. } => put_order(text, *book, *day),
        Reply::Withdrawn(book) => put_count(text, b"withdrawn", *book),
        Reply::NotOwner(owner) => put_name(text, b"owner ", owner),
        Reply::NoSuch(missing) => text.put(missing_line(missing)),
        Reply::Gone(book) => put_count(text, b"withdrawn", *book),
        Reply::Changed(revision) => put_count(text, b"changed", *revision),
        Reply::NumberUsed(book) => put_count(text, b"number used", *book),
        Reply::TextRefused(fault) => put_book_fault(text, fault),
        Reply::Found(_) => text.put(b"found\n"),
        Reply::Undecided(_) => text.put(b"undecided\n"),
        Reply::Limit(fault) => put_limit_fault(text, fault),
        Reply::Refused(rule) => put_name(text, b"refused ", rule),
        Reply::OrderFault(fault) => put_order_fault(text, fault),
        Reply::StoreFault { .. } => text.put(b"store fault\n"),
        Reply::Full(what) => text.put(full_line(what)),
        Reply::Memory => text.put(b"want of memory\n"),
        Reply::Raw(_) => Ok(()),
        Reply::Cert(_) => Ok(()),
        Reply::Report(_) => Ok(()),
        Reply::Placed { .. } => Ok(()),
    }
}

/// What stands behind the line of a reply. It is moved out of the reply.
pub fn rest_of(alloc: Global, reply: Reply) -> Body
    ensures { result ≡ rest_of reply }
{
    match reply {
        Reply::Raw(text) => text,
        Reply::Cert(text) => text,
        Reply::Report(text) => text,
        Reply::Placed { text, .. } => text,
        Reply::OrderIs { text, .. } => text,
        Reply::Found(text) => text,
        Reply::Undecided(text) => text,
        _ => Body::new(alloc),
    }
}

fn put_kept(text: &mut Text, draft: &Id, revision: u32) -> Result<(), Memory>
    ensures { OnOk result (text.new ≡ text.old ++ line_of (Reply.Kept draft.now revision)) }
{
    text.put(b"kept ")?;
    text.put(draft.bytes())?;
    put_count(text, b"", revision)
}

fn put_given(text: &mut Text, draft: &Id, to: &Id) -> Result<(), Memory>
    ensures { OnOk result (text.new ≡ text.old ++ line_of (Reply.Given draft.now to.now)) }
{
    text.put(b"given ")?;
    text.put(draft.bytes())?;
    put_name(text, b" ", to)
}

fn put_owner(text: &mut Text, owner: &Id, revision: u32) -> Result<(), Memory>
    ensures { OnOk result (text.new ≡ text.old ++ line_of (Reply.OwnerIs owner.now revision)) }
{
    text.put(b"owner ")?;
    text.put(owner.bytes())?;
    put_count(text, b" revision", revision)
}

fn put_order(text: &mut Text, book: u32, day: u32) -> Result<(), Memory>
    ensures { OnOk result (text.new ≡ text.old ++ line_of (Reply.OrderIs book day [])) }
{
    text.put(b"book")?;
    put_number(text, u64::from(book))?;
    put_count(text, b" day", day)
}

// Puts a word, a space and a number, and ends the line.
fn put_count(text: &mut Text, word: &[u8], number: u32) -> Result<(), Memory>
    ensures { OnOk result (text.new ≡ text.old ++ line (word.now ++ number_behind number)) }
{
    text.put(word)?;
    put_number(text, u64::from(number))?;
    text.put(b"\n")
}

// Puts a word and a name, and ends the line.
fn put_name(text: &mut Text, word: &[u8], name: &Id) -> Result<(), Memory>
    ensures { OnOk result (text.new ≡ text.old ++ line (word.now ++ name.now)) }
{
    text.put(word)?;
    text.put(name.bytes())?;
    text.put(b"\n")
}

fn missing_line(missing: &Missing) -> &'static [u8]
    ensures { result.now ≡ missing_line missing.now }
{
    match missing {
        Missing::Draft => b"no such draft\n",
        Missing::Book => b"no such book\n",
        Missing::Order => b"no such order\n",
    }
}

fn full_line(what: &FullOf) -> &'static [u8]
    ensures { result.now ≡ full_line what.now }
{
    match what {
        FullOf::Drafts => b"full drafts\n",
        FullOf::Revisions => b"full revisions\n",
        FullOf::Books => b"full books\n",
        FullOf::Orders => b"full orders\n",
        FullOf::Calls => b"full calls\n",
    }
}
