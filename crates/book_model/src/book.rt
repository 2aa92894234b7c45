//! A book that meets its condition.
ghost use Rattle.std.specs.Prelude.{◌≡◌, ◌+◌, ◌<◌, ◌≤◌, length, All, IsTrue};
ghost use Rattle.pb_base.specs.declared.limits.TheConstants.{MOST_SUPPLEMENTS, MOST_CONSTRUCTS, MOST_GROUPS, MOST_MODULES, MOST_POSITIONS, MOST_VARIANTS, MOST_CHOICES};
ghost use Rattle.book_model.specs.BookParts.{contents_of, AreWhole};
ghost use Rattle.book_model.specs.Book.{IsBook, SupplementFits, ConstructFits, PositionFits, VariantFits};
ghost use Rattle.book_model.specs.Parts.{variants_of};

use crate::groups::VariantGroups;
use crate::record::{Construct, Module, Position, Slice, Supplement, Variant};
use pb_base::{CodeTable, Day, Id};
use std::marker::Model;

/// The parts of a book, each list in the order of the book's text.
#[derive(Drop)]
pub struct BookParts {
    pub name: Id,
    /// The first day of the term.
    pub first: Day,
    /// The last day of the term, which is one of its days.
    pub last: Day,
    pub codes: CodeTable,
    pub supplements: Vec<Supplement>,
    pub constructs: Vec<Construct>,
    pub modules: Vec<Module>,
    pub positions: Vec<Position>,
    pub variants: Vec<Variant>,
    /// The variants by position, made of `variants`.
    pub groups: VariantGroups,
}

/// A book of rules that meets its condition: references stand for something, ids are distinct and the limits are kept. A contract sees its contents.
#[derive(Drop)]
pub struct Book {
    parts: BookParts,
}

impl Model for Book {
    ghost use Rattle.book_model.specs.Contents.{Contents};
    ghost use Rattle.book_model.specs.ContentsCode.{contents_code};

    ghost Value = { Contents };

    ghost coded = { contents_code };

    ghost use Rattle.book_model.specs.BookParts.{contents_of, AreWhole};

    ghost view = { λ b. contents_of b.parts };

    ghost invariant = { λ b. AreWhole b.parts };
}

impl Book {
    /// The book of these parts.
    pub fn of(parts: BookParts) -> Book
        requires { AreWhole parts }
        ensures { result ≡ contents_of parts }
    {
        Book { parts }
    }

    /// The name of the book.
    pub fn name(&self) -> &Id
        ensures value { result.now ≡ self.now.name }
        ensures book { IsBook self.now }
    {
        &self.parts.name
    }

    /// The term: the days on which the book speaks.
    pub fn term(&self) -> Slice
        ensures first { result.first ≡ self.now.first }
        ensures last { result.last ≡ self.now.last }
        ensures order { self.now.first ≤ self.now.last }
        ensures book { IsBook self.now }
    {
        Slice {
            first: self.parts.first,
            last: self.parts.last,
        }
    }

    /// The codes, in record order.
    pub fn codes(&self) -> &CodeTable
        ensures value { result.now ≡ self.now.codes }
        ensures book { IsBook self.now }
    {
        &self.parts.codes
    }

    /// The supplementing rules, in record order.
    pub fn supplements(&self) -> &[Supplement]
        ensures value { result.now ≡ self.now.supplements }
        ensures fit { All (SupplementFits (length self.now.codes)) result.now }
        ensures limit { length result.now ≤ MOST_SUPPLEMENTS }
    {
        &self.parts.supplements
    }

    /// The constructibility rules, groups among them, in record order.
    pub fn constructs(&self) -> &[Construct]
        ensures value { result.now ≡ self.now.constructs }
        ensures fit { All (ConstructFits (length self.now.codes)) result.now }
        ensures limit { length result.now ≤ MOST_CONSTRUCTS + MOST_GROUPS }
    {
        &self.parts.constructs
    }

    /// The modules, in record order.
    pub fn modules(&self) -> &[Module]
        ensures value { result.now ≡ self.now.modules }
        ensures limit { length result.now ≤ MOST_MODULES }
    {
        &self.parts.modules
    }

    /// The positions of the parts list, in record order.
    pub fn positions(&self) -> &[Position]
        ensures value { result.now ≡ self.now.positions }
        ensures fit { All (PositionFits (length self.now.modules)) result.now }
        ensures limit { length result.now ≤ MOST_POSITIONS }
    {
        &self.parts.positions
    }

    /// The variants of all positions, in record order.
    pub fn variants(&self) -> &[Variant]
        ensures value { result.now ≡ self.now.variants }
        ensures fit { All (VariantFits (length self.now.codes) (length self.now.positions)) result.now }
        ensures limit { length result.now ≤ MOST_VARIANTS }
    {
        &self.parts.variants
    }

    /// The places of the variants of the position at a place, in record order. It takes no search.
    pub fn variants_of(&self, position: u32) -> &[u32]
        requires { position < length self.now.positions }
        ensures value { result.now ≡ variants_of position self.now.variants }
        ensures limit { length result.now ≤ MOST_CHOICES }
        ensures in_range { All (λ v. v < length self.now.variants) result.now }
    {
        self.parts.groups.of_position(position)
    }
}
