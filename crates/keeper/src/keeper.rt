//! What keeps the rows.
ghost use Rattle.std.specs.Prelude.{◌≡◌, ℕ, List, Option, IfOk, IfSome, OnOk, OnErr};
ghost use Rattle.std.specs.Option.{option_map};
ghost use Rattle.pb_outside.specs.Faults.{Faults, raised};
ghost use Rattle.keeper.specs.Causes.{HasCause};
ghost use Rattle.keeper.specs.Rows.{Kept, kept_of, with_draft, with_book, with_order, with_withdrawn, begun, migrated, IsInOrder};

use crate::{BookRow, DraftRow, OrderRow, Rows};
use pb_outside::OutError;

/// What keeps the rows of the order desk: a store in a file, or rows in memory. After an error the rows are as
/// before.
pub trait Keeper {
    /// The rows, where the keeper tells them.
    ghost told: { Self → Option Kept };

    /// How often a call has failed so far, and whether no call fails from here on.
    ghost failures: { Self → Faults };

    /// How many calls were made of it, where the keeper tells them. A call counts whatever it answers, and one of `faults`
    /// doesn't. Who runs any keeper has no other way to raise this count than by a call, so that a clause of it says how many
    /// calls a function makes.
    ghost calls: { Self → Option ℕ };

    /// By which names it may begin. A keeper takes any; who runs one of a kind that isn't known has only the names of which
    /// this was said.
    ghost may_begin: { Self → List ℕ → Type 0 };

    /// Begins to keep rows in the store of this name. An empty store gets form 2, and every other is left as it
    /// is.
    fn begin(&mut self, name: &str) -> Result<(), OutError>
        requires { may_begin self.old name.now }
        ensures done { OnOk result (told self.new ≡ option_map begun (told self.old)) }
        ensures unchanged { OnErr result (told self.new ≡ told self.old) }
        ensures count { HasCause result (failures self.old) (failures self.new) }
        ensures calls { calls self.new ≡ option_map raised (calls self.old) };

    /// All rows, in the order of their keys where they were kept so.
    fn load(&mut self) -> Result<Rows, OutError>
        ensures rows { IfOk result (λ rows. IfSome (told self.old) (λ kept. kept_of rows ≡ kept)) }
        ensures unchanged { told self.new ≡ told self.old }
        ensures count { HasCause result (failures self.old) (failures self.new) }
        ensures calls { calls self.new ≡ option_map raised (calls self.old) };

    /// Sets the draft of this name.
    fn put_draft(&mut self, row: &DraftRow) -> Result<(), OutError>
        ensures done { OnOk result (told self.new ≡ option_map (with_draft row.now) (told self.old)) }
        ensures unchanged { OnErr result (told self.new ≡ told self.old) }
        ensures in_order { IfSome (told self.old) IsInOrder → IfSome (told self.new) IsInOrder }
        ensures count { HasCause result (failures self.old) (failures self.new) }
        ensures calls { calls self.new ≡ option_map raised (calls self.old) };

    /// Sets the book of this number.
    fn put_book(&mut self, row: &BookRow) -> Result<(), OutError>
        ensures done { OnOk result (told self.new ≡ option_map (with_book row.now) (told self.old)) }
        ensures unchanged { OnErr result (told self.new ≡ told self.old) }
        ensures in_order { IfSome (told self.old) IsInOrder → IfSome (told self.new) IsInOrder }
        ensures count { HasCause result (failures self.old) (failures self.new) }
        ensures calls { calls self.new ≡ option_map raised (calls self.old) };

    /// Sets the order of this caller and number.
    fn put_order(&mut self, row: &OrderRow) -> Result<(), OutError>
        ensures done { OnOk result (told self.new ≡ option_map (with_order row.now) (told self.old)) }
        ensures unchanged { OnErr result (told self.new ≡ told self.old) }
        ensures in_order { IfSome (told self.old) IsInOrder → IfSome (told self.new) IsInOrder }
        ensures count { HasCause result (failures self.old) (failures self.new) }
        ensures calls { calls self.new ≡ option_map raised (calls self.old) };

    /// Adds the number of a withdrawn book, where it is not there.
    fn put_withdrawn(&mut self, number: u64) -> Result<(), OutError>
        ensures done { OnOk result (told self.new ≡ option_map (with_withdrawn number) (told self.old)) }
        ensures unchanged { OnErr result (told self.new ≡ told self.old) }
        ensures in_order { IfSome (told self.old) IsInOrder → IfSome (told self.new) IsInOrder }
        ensures count { HasCause result (failures self.old) (failures self.new) }
        ensures calls { calls self.new ≡ option_map raised (calls self.old) };

    /// Turns a store of form 1 into one of form 2. Every other store is left as it is.
    fn migrate(&mut self) -> Result<(), OutError>
        ensures done { OnOk result (told self.new ≡ option_map migrated (told self.old)) }
        ensures unchanged { OnErr result (told self.new ≡ told self.old) }
        ensures count { HasCause result (failures self.old) (failures self.new) }
        ensures calls { calls self.new ≡ option_map raised (calls self.old) };

    /// How often a call has failed so far.
    fn faults(&self) -> u64
        ensures { result ≡ (failures self.now).count };
}
