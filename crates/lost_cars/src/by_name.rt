//! Codes of one book, read as those of another by their names.
ghost use Rattle.std.specs.Prelude.{◌≡◌};
ghost use Rattle.lost_cars.specs.ByName.{by_name};

use book_model::Book;
use pb_base::{CodeTable, Leaf, Leaves};

/// Each code of the other book is the code of the own book with its name; one whose name the own book hasn't is never present.
#[derive(Clone, Copy)]
pub(crate) struct ByName<'a> {
    pub(crate) own: &'a CodeTable,
    pub(crate) other: &'a CodeTable,
}

impl<'a> ByName<'a> {
    pub(crate) fn of(own: &'a Book, other: &'a Book) -> ByName<'a>
        ensures own { result.own.now ≡ own.now.codes }
        ensures other { result.other.now ≡ other.now.codes }
    {
        ByName {
            own: own.codes(),
            other: other.codes(),
        }
    }
}

impl<'a> Leaves for ByName<'a> {
    ghost leaf = { λ b code. by_name b.own.now b.other.now code };

    fn leaf(&self, code: u32) -> Leaf {
        if code >= self.other.len() {
            return Leaf::No;
        }
        match self.own.place_of(self.other.name_of(code)) {
            Some(place) => Leaf::Code(place),
            None => Leaf::No,
        }
    }
}
