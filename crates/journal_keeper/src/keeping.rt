//! A keeper over a journal.
ghost use Rattle.std.specs.Prelude.{◌≡◌, ◌⊎◌, List, ℕ, false, None, IfOk, IfSome, OnOk, OnErr};
ghost use Rattle.std.specs.Option.{option_map};
ghost use Rattle.keeper.specs.Causes.{HasCause};
ghost use Rattle.keeper.specs.Rows.{kept_of, with_draft, with_book, with_order, with_withdrawn, begun, migrated, IsInOrder};
ghost use Rattle.disk.specs.Disk.{WhereTold, LeavesOnly};
ghost use Rattle.journal_keeper.specs.Keeping.{PutsEntry, counted, rows_told};
ghost use Rattle.journal_keeper.specs.Record.{Draft, Book, Order, Withdrawn, effect};
ghost use Rattle.journal_keeper.specs.Stage.{doubted, is_open, IsBegun, IsFound, StillStands};

use crate::Stage;
use crate::beginning::begin;
use crate::loading::load;
use crate::putting::put;
use crate::recorded::Recorded;
use disk::Disk;
use keeper::{BookRow, DraftRow, Keeper, OrderRow, Rows};
use pb_outside::{FaultCount, OutError};
use std::alloc::Global;
use std::marker::Model;

/// Rows in a journal on a disk. A stop at any moment leaves the rows that were put so far, each put that was answered
/// with Ok among them. The name that `begin` is given is one of the disk, of which no sync has failed so far.
#[derive(Drop)]
pub struct JournalKeeper<D: Disk> {
    alloc: Global,
    disk: D,
    stage: Stage,
    refusals: FaultCount,
    // What `begin` read of the file, until `load` takes it or a put changes the file.
    held: Option<Vec<u8>>,
}

impl<D: Disk> Model for JournalKeeper<D> {
    ghost use Rattle.journal_keeper.specs.Keeping.{Keeping};

    ghost Value = { Keeping D };

    ghost use Rattle.journal_keeper.specs.Held.{IsKept};

    ghost view = { λ k. record { disk = k.disk; stage = k.stage; refusals = k.refusals } };

    ghost invariant = { λ k. IsKept k.held k.stage (D.content k.disk) (D.may_leave k.disk) };
}

impl<D: Disk> JournalKeeper<D> {
    /// A keeper that has not begun yet.
    pub fn new(alloc: Global, disk: D) -> JournalKeeper<D>
        ensures disk { result.disk ≡ disk }
        ensures stage { result.stage ≡ Stage.Shut }
        ensures refusals { result.refusals ≡ 0 }
    {
        JournalKeeper {
            alloc,
            disk,
            stage: Stage::Shut,
            refusals: FaultCount::new(),
            held: None,
        }
    }

    /// The disk as it is now.
    pub fn into_disk(self) -> D
        ensures { result ≡ self.disk }
    {
        let JournalKeeper {
            alloc: _,
            disk,
            stage: _,
            refusals: _,
            held: _,
        } = self;
        disk
    }

    // Sets the row of its key.
    fn record<R: Recorded>(&mut self, row: &R) -> Result<(), OutError>
        ensures done { OnOk result (rows_told D.content self.new
            ≡ option_map (effect (R.entry row.now)) (rows_told D.content self.old)) }
        ensures unchanged { OnErr result (rows_told D.content self.new ≡ rows_told D.content self.old) }
        ensures in_order { IfSome (rows_told D.content self.old) IsInOrder
            → IfSome (rows_told D.content self.new) IsInOrder }
        ensures count { HasCause result (counted D.failures self.old) (counted D.failures self.new) }
        ensures put { PutsEntry D.content D.may_leave D.moment D.left_since D.failures result (R.entry row.now)
            self.old self.new }
    {
        self.held = None;
        put(
            self.alloc,
            &mut self.disk,
            &mut self.stage,
            &mut self.refusals,
            row,
        )
    }
}

impl<D: Disk> Keeper for JournalKeeper<D> {
    ghost told = { rows_told D.content };

    ghost failures = { counted D.failures };

    ghost calls = { λ _. None };

    ghost may_begin = { λ k name. D.may_begin k.disk name };

    fn begin(&mut self, name: &str) -> Result<(), OutError>
        requires { D.may_begin self.old.disk name.now }
        ensures done { OnOk result (rows_told D.content self.new ≡ option_map begun (rows_told D.content self.old)) }
        ensures unchanged { OnErr result (rows_told D.content self.new ≡ rows_told D.content self.old) }
        ensures count { HasCause result (counted D.failures self.old) (counted D.failures self.new) }
        ensures refusals { self.new.refusals ≡ self.old.refusals }

        // What it found, and what each stop leaves in the call and until the next one.
        ensures found { OnOk result (WhereTold (D.content self.new.disk) (IsFound self.new.stage)) }
        ensures any_moment { WhereTold (D.content self.old.disk) (λ file. LeavesOnly D.moment D.left_since
            self.old.disk self.new.disk (IsBegun self.old.stage file (D.may_leave self.old.disk))) }
        ensures stands { WhereTold (D.content self.new.disk) (λ file. (image : List ℕ)
            → D.may_leave self.new.disk image → StillStands self.new.stage file image) }
        ensures doubt { doubted self.new.stage (D.content self.new.disk)
            ≡ doubted self.old.stage (D.content self.old.disk) }
    {
        self.held = None;
        begin(self.alloc, &mut self.disk, &mut self.stage, &mut self.held)
    }

    fn load(&mut self) -> Result<Rows, OutError>
        ensures rows { IfOk result (λ rows. IfSome (rows_told D.content self.old) (λ kept. kept_of rows ≡ kept)) }
        ensures unchanged { rows_told D.content self.new ≡ rows_told D.content self.old }
        ensures count { HasCause result (counted D.failures self.old) (counted D.failures self.new) }
        ensures refusals { self.new.refusals ≡ self.old.refusals }
        ensures any_moment { WhereTold (D.content self.old.disk) (λ file. LeavesOnly D.moment D.left_since
            self.old.disk self.new.disk (StillStands self.old.stage file)) }
        ensures stands { WhereTold (D.content self.new.disk) (λ file. (image : List ℕ)
            → D.may_leave self.new.disk image → StillStands self.new.stage file image) }
        ensures doubt { (doubted self.new.stage (D.content self.new.disk) ≡ None)
            ⊎ (doubted self.new.stage (D.content self.new.disk)
            ≡ doubted self.old.stage (D.content self.old.disk)) }
        ensures stays_open { is_open self.new.stage ≡ is_open self.old.stage }
    {
        let held = self.held.take();
        load(self.alloc, &mut self.disk, &mut self.stage, held)
    }

    fn put_draft(&mut self, row: &DraftRow) -> Result<(), OutError>
        ensures done { OnOk result (rows_told D.content self.new
            ≡ option_map (with_draft row.now) (rows_told D.content self.old)) }
        ensures unchanged { OnErr result (rows_told D.content self.new ≡ rows_told D.content self.old) }
        ensures in_order { IfSome (rows_told D.content self.old) IsInOrder
            → IfSome (rows_told D.content self.new) IsInOrder }
        ensures count { HasCause result (counted D.failures self.old) (counted D.failures self.new) }
        ensures put { PutsEntry D.content D.may_leave D.moment D.left_since D.failures result (Draft row.now)
            self.old self.new }
    {
        self.record(row)
    }

    fn put_book(&mut self, row: &BookRow) -> Result<(), OutError>
        ensures done { OnOk result (rows_told D.content self.new
            ≡ option_map (with_book row.now) (rows_told D.content self.old)) }
        ensures unchanged { OnErr result (rows_told D.content self.new ≡ rows_told D.content self.old) }
        ensures in_order { IfSome (rows_told D.content self.old) IsInOrder
            → IfSome (rows_told D.content self.new) IsInOrder }
        ensures count { HasCause result (counted D.failures self.old) (counted D.failures self.new) }
        ensures put { PutsEntry D.content D.may_leave D.moment D.left_since D.failures result (Book row.now)
            self.old self.new }
    {
        self.record(row)
    }

    fn put_order(&mut self, row: &OrderRow) -> Result<(), OutError>
        ensures done { OnOk result (rows_told D.content self.new
            ≡ option_map (with_order row.now) (rows_told D.content self.old)) }
        ensures unchanged { OnErr result (rows_told D.content self.new ≡ rows_told D.content self.old) }
        ensures in_order { IfSome (rows_told D.content self.old) IsInOrder
            → IfSome (rows_told D.content self.new) IsInOrder }
        ensures count { HasCause result (counted D.failures self.old) (counted D.failures self.new) }
        ensures put { PutsEntry D.content D.may_leave D.moment D.left_since D.failures result (Order row.now)
            self.old self.new }
    {
        self.record(row)
    }

    fn put_withdrawn(&mut self, number: u64) -> Result<(), OutError>
        ensures done { OnOk result (rows_told D.content self.new
            ≡ option_map (with_withdrawn number) (rows_told D.content self.old)) }
        ensures unchanged { OnErr result (rows_told D.content self.new ≡ rows_told D.content self.old) }
        ensures in_order { IfSome (rows_told D.content self.old) IsInOrder
            → IfSome (rows_told D.content self.new) IsInOrder }
        ensures count { HasCause result (counted D.failures self.old) (counted D.failures self.new) }
        ensures put { PutsEntry D.content D.may_leave D.moment D.left_since D.failures result (Withdrawn number)
            self.old self.new }
    {
        self.record(&number)
    }

    fn migrate(&mut self) -> Result<(), OutError>
        ensures done { OnOk result (rows_told D.content self.new ≡ option_map migrated (rows_told D.content self.old)) }
        ensures unchanged { OnErr result (rows_told D.content self.new ≡ rows_told D.content self.old) }
        ensures count { HasCause result (counted D.failures self.old) (counted D.failures self.new) }
        ensures nothing { self.new ≡ self.old }
    {
        // A journal has form 2 from the start.
        Ok(())
    }

    fn faults(&self) -> u64 {
        self.disk.faults().saturating_add(self.refusals.faults())
    }
}
