//! Lists that own their items.
ghost use Rattle.std.specs.Prelude.{◌≡◌, ◌++◌, [], ◌∷◌, IfOk, OnOk, OnErr};

use crate::answer::Memory;
use crate::names::CodeName;
use std::alloc::Global;
use std::marker::Model;

/// Items in a sequence. An item may stand in it more than once. A contract sees the list of the items.
#[derive(Drop)]
pub struct Sequence<T> {
    items: Vec<T>,
}

/// The codes of an order, as it names them.
pub type CodeList = Sequence<CodeName>;

/// A text that is handed on as it is: a book, a certificate or an answer.
pub type Body = Sequence<u8>;

impl<T> Model for Sequence<T> {
    ghost use Rattle.std.specs.Prelude.{List};

    ghost Value = { List T };

    ghost view = { λ s. s.items.items };
}

impl<T> Sequence<T> {
    /// The sequence without items.
    pub fn new(alloc: Global) -> Sequence<T>
        ensures { result ≡ [] }
    {
        Sequence {
            items: Vec::new(alloc),
        }
    }

    /// The sequence of these items, which are kept as they are.
    pub fn of(items: Vec<T>) -> Sequence<T>
        ensures { result ≡ items.items }
    {
        Sequence { items }
    }

    /// The items in their sequence.
    pub fn as_slice(&self) -> &[T]
        ensures { result.now ≡ self.now }
    {
        &self.items
    }

    /// The items, each to be moved on. None is copied.
    pub fn into_items(self) -> Vec<T>
        ensures { result.items ≡ self }
    {
        self.items
    }
}

impl<T: Drop> Sequence<T> {
    /// Puts an item behind the others. On want of memory the sequence is as before.
    pub fn push(&mut self, item: T) -> Result<(), Memory>
        ensures ok { OnOk result (self.new ≡ self.old ++ item ∷ []) }
        ensures err { OnErr result (self.new ≡ self.old) }
    {
        self.items.push(item)?;
        Ok(())
    }
}

impl<T: Copy> Sequence<T> {
    /// A further sequence that is equal to this one.
    pub fn copy(&self, alloc: Global) -> Result<Sequence<T>, Memory>
        ensures { IfOk result (λ s. s ≡ self.now) }
    {
        let items = Vec::from_slice(alloc, &self.items)?;
        Ok(Sequence { items })
    }
}
