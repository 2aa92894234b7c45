//! Questions, with the ids of what they name.
ghost use Rattle.std.specs.Prelude.{◌≡◌, ◌++◌, OnOk};
ghost use Rattle.findings.specs.ReportText.{ambiguous_text, question_text};

use book_model::{Book, code_name, position_id, variant_id};
use clausify::Question;
use pb_base::{Memory, Text};

pub(crate) fn put_question(text: &mut Text, book: &Book, question: Question) -> Result<(), Memory>
    ensures { OnOk result (text.new ≡ text.old ++ question_text book.now question) }
{
    match question {
        Question::Void => text.put(b"void"),
        Question::Necessary(code) => put_two(text, b"necessary ", code_name(book, code)),
        Question::Inadmissible(code) => put_two(text, b"inadmissible ", code_name(book, code)),
        Question::Superfluous(variant) => put_two(text, b"superfluous ", variant_id(book, variant)),
        Question::Ambiguous {
            position,
            first,
            second,
        } => put_ambiguous(text, book, position, first, second),
        Question::Uncovered(position) => put_two(text, b"uncovered ", position_id(book, position)),
    }
}

// A word, and the id of what it is said of.
fn put_two(text: &mut Text, word: &[u8], id: &[u8]) -> Result<(), Memory>
    ensures { OnOk result (text.new ≡ text.old ++ (word.now ++ id.now)) }
{
    text.put(word)?;
    text.put(id)
}

// Two variants of a position.
fn put_ambiguous(
    text: &mut Text,
    book: &Book,
    position: u32,
    first: u32,
    second: u32,
) -> Result<(), Memory>
    ensures { OnOk result (text.new ≡ text.old ++ ambiguous_text book.now position first second) }
{
    text.put(b"ambiguous ")?;
    text.put(position_id(book, position))?;
    text.put(b" ")?;
    text.put(variant_id(book, first))?;
    text.put(b" ")?;
    text.put(variant_id(book, second))
}
