//! A book as far as the second pass has come.
ghost use Rattle.std.specs.Prelude.{◌≡◌, IfOk, length};
ghost use Rattle.book_text.specs.PartialBook.{records_of, IsGrouped};
ghost use Rattle.book_text.specs.Records.{no_records};

use crate::names::Names;
use book_model::{Construct, Module, Position, Supplement, Variant, VariantGroups};
use pb_base::Memory;
use std::alloc::Global;

/// The records of a book as far as they were read, each list in record order.
#[derive(Drop)]
pub struct PartialBook {
    pub supplements: Vec<Supplement>,
    pub constructs: Vec<Construct>,
    pub modules: Vec<Module>,
    pub positions: Vec<Position>,
    pub variants: Vec<Variant>,
    /// The variants by position, made of `variants`.
    pub groups: VariantGroups,
}

impl PartialBook {
    /// The book without records, with these names: there is room for a record of each.
    pub fn new(alloc: Global, names: &Names) -> Result<PartialBook, Memory>
        ensures empty { IfOk result (λ book. records_of book ≡ no_records) }
        ensures grouped { IfOk result (IsGrouped (length names.now.positions)) }
    {
        let groups = VariantGroups::empty(alloc, names.positions.len() as usize)?;
        let mut book = PartialBook::without_records(alloc, groups);
        book.make_room(names)?;
        Ok(book)
    }

    fn without_records(alloc: Global, groups: VariantGroups) -> PartialBook
        ensures empty { records_of result ≡ no_records }
        ensures groups { result.groups ≡ groups }
    {
        PartialBook {
            supplements: Vec::new(alloc),
            constructs: Vec::new(alloc),
            modules: Vec::new(alloc),
            positions: Vec::new(alloc),
            variants: Vec::new(alloc),
            groups,
        }
    }

    // Makes room for a record of each name.
    fn make_room(&mut self, names: &Names) -> Result<(), Memory>
        ensures records { records_of self.new ≡ records_of self.old }
        ensures groups { self.new.groups ≡ self.old.groups }
    {
        self.supplements
            .reserve_exact(names.supplements.len() as usize)?;
        self.constructs
            .reserve_exact(names.constructs.len() as usize)?;
        self.modules.reserve_exact(names.modules.len() as usize)?;
        self.positions
            .reserve_exact(names.positions.len() as usize)?;
        self.variants.reserve_exact(names.variants.len() as usize)?;
        Ok(())
    }
}
