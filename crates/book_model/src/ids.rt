//! The ids of a book's records and the names of its codes, by their places, which are counted from 0.
ghost use Rattle.std.specs.Prelude.{◌≡◌};
ghost use Rattle.book_model.specs.Ids.{code_name, supplement_id, construct_id, variant_id, position_id, module_of, module_id};

use crate::book::Book;

/// The name of the code at a place; no bytes where the book has none there.
pub fn code_name(book: &Book, code: u32) -> &[u8]
    ensures { result.now ≡ code_name book.now code }
{
    let codes = book.codes();
    if code < codes.len() {
        codes.name_of(code).bytes()
    } else {
        &[]
    }
}

/// The id of the supplementing rule at a place; no bytes where the book has none there.
pub fn supplement_id(book: &Book, rule: u32) -> &[u8]
    ensures { result.now ≡ supplement_id book.now rule }
{
    match book.supplements().get(rule as usize) {
        Some(rule) => rule.id.bytes(),
        None => &[],
    }
}

/// The id of the constructibility rule at a place; no bytes where the book has none there.
pub fn construct_id(book: &Book, rule: u32) -> &[u8]
    ensures { result.now ≡ construct_id book.now rule }
{
    match book.constructs().get(rule as usize) {
        Some(construct) => construct.id.bytes(),
        None => &[],
    }
}

/// The id of the variant at a place; no bytes where the book has none there.
pub fn variant_id(book: &Book, variant: u32) -> &[u8]
    ensures { result.now ≡ variant_id book.now variant }
{
    match book.variants().get(variant as usize) {
        Some(variant) => variant.id.bytes(),
        None => &[],
    }
}

/// The id of the position at a place; no bytes where the book has none there.
pub fn position_id(book: &Book, position: u32) -> &[u8]
    ensures { result.now ≡ position_id book.now position }
{
    match book.positions().get(position as usize) {
        Some(position) => position.id.bytes(),
        None => &[],
    }
}

/// The id of the module in which a position stands, or `-` for none.
pub fn module_id(book: &Book, position: u32) -> &[u8]
    ensures { result.now ≡ module_id book.now position }
{
    match module_of(book, position) {
        Some(place) => match book.modules().get(place as usize) {
            Some(found) => found.id.bytes(),
            None => b"-",
        },
        None => b"-",
    }
}

fn module_of(book: &Book, position: u32) -> Option<u32>
    ensures { result ≡ module_of book.now position }
{
    book.positions().get(position as usize)?.module
}
