//! The kinds of record, by the word in a row's first field.
ghost use Rattle.std.specs.Prelude.{◌≡◌};
ghost use Rattle.book_text.specs.Kind.{kind_of};

#[derive(Clone, Copy, Debug, PartialEq, Eq)]
pub enum Kind {
    Book,
    Code,
    Supplement,
    Construct,
    Group,
    Module,
    Position,
    Variant,
}

/// The kind that a word names, or None for any other text.
pub fn kind_of(word: &[u8]) -> Option<Kind>
    ensures { result ≡ kind_of word.now }
{
    if word == b"variant".as_slice() {
        Some(Kind::Variant)
    } else if word == b"construct".as_slice() {
        Some(Kind::Construct)
    } else if word == b"supplement".as_slice() {
        Some(Kind::Supplement)
    } else if word == b"position".as_slice() {
        Some(Kind::Position)
    } else if word == b"code".as_slice() {
        Some(Kind::Code)
    } else if word == b"module".as_slice() {
        Some(Kind::Module)
    } else if word == b"group".as_slice() {
        Some(Kind::Group)
    } else if word == b"book".as_slice() {
        Some(Kind::Book)
    } else {
        None
    }
}
