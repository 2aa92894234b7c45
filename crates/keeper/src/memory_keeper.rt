//! A keeper in memory.
ghost use Rattle.std.specs.Prelude.{◌≡◌, ◌≢◌, Some, IfOk, OnOk, OnErr, ⊤};
ghost use Rattle.pb_outside.specs.FaultPlan.{faults_of};
ghost use Rattle.keeper.specs.Rows.{kept_of, with_draft, with_book, with_order, with_withdrawn, begun, migrated, IsInOrder};
ghost use Rattle.keeper.specs.Causes.{HasCause};
ghost use Rattle.keeper.specs.MemoryKeeper.{GoesByPlan};

use crate::table::put_row;
use crate::{BookRow, DraftRow, Keeper, OrderRow, Rows};
use pb_outside::{FaultPlan, OutError};
use std::marker::Model;

/// Rows in memory, with chosen calls that fail. It tells all.
#[derive(Drop)]
pub struct MemoryKeeper {
    rows: Rows,
    plan: FaultPlan,
}

impl Model for MemoryKeeper {
    ghost use Rattle.keeper.specs.Rows.{kept_of};
    ghost use Rattle.keeper.specs.MemoryKeeper.{Store};

    ghost Value = { Store };

    ghost view = { λ k. record { rows = kept_of k.rows; plan = k.plan } };
}

impl MemoryKeeper {
    /// A call fails, and changes no row, exactly where its number is among `fails`. They are counted from 0;
    /// `rows` and `faults` are not counted.
    pub fn new(rows: Rows, fails: Vec<u64>) -> MemoryKeeper
        ensures rows { result.rows ≡ kept_of rows }
        ensures plan { result.plan ≡ record { fails = fails.items; next_call = 0; faults = 0 } }
    {
        MemoryKeeper {
            rows,
            plan: FaultPlan::new(fails),
        }
    }

    /// The rows as they are.
    pub fn rows(&self) -> &Rows
        ensures { kept_of result.now ≡ self.now.rows }
    {
        &self.rows
    }
}

// Begins the next call, or fails where it is to.
fn begin_call(plan: &mut FaultPlan) -> Result<(), OutError>
    ensures goes { GoesByPlan result plan.old plan.new }
    ensures count { HasCause result (faults_of plan.old) (faults_of plan.new) }
    ensures no_memory { result ≢ Err OutError.Memory }
{
    if plan.begin_call() {
        return Err(OutError::Failed);
    }
    Ok(())
}

impl Keeper for MemoryKeeper {
    ghost told = { λ k. Some k.rows };

    ghost failures = { λ k. faults_of k.plan };

    ghost calls = { λ k. Some k.plan.next_call };

    ghost may_begin = { λ _ _. ⊤ };

    fn begin(&mut self, _: &str) -> Result<(), OutError>
        ensures done { OnOk result (self.new.rows ≡ begun self.old.rows) }
        ensures unchanged { OnErr result (self.new.rows ≡ self.old.rows) }
        ensures no_memory { result ≢ Err OutError.Memory }
        ensures count { HasCause result (faults_of self.old.plan) (faults_of self.new.plan) }
        ensures goes { GoesByPlan result self.old.plan self.new.plan }
    {
        begin_call(&mut self.plan)?;
        if self.rows.are_none() {
            self.rows.form = 2;
        }
        Ok(())
    }

    fn load(&mut self) -> Result<Rows, OutError>
        ensures rows { IfOk result (λ rows. kept_of rows ≡ self.old.rows) }
        ensures unchanged { self.new.rows ≡ self.old.rows }
        ensures count { HasCause result (faults_of self.old.plan) (faults_of self.new.plan) }
        ensures goes { GoesByPlan result self.old.plan self.new.plan }
    {
        begin_call(&mut self.plan)?;
        Ok(self.rows.copy()?)
    }

    fn put_draft(&mut self, row: &DraftRow) -> Result<(), OutError>
        ensures done { OnOk result (self.new.rows ≡ with_draft row.now self.old.rows) }
        ensures unchanged { OnErr result (self.new.rows ≡ self.old.rows) }
        ensures in_order { IsInOrder self.old.rows → IsInOrder self.new.rows }
        ensures count { HasCause result (faults_of self.old.plan) (faults_of self.new.plan) }
        ensures goes { GoesByPlan result self.old.plan self.new.plan }
    {
        begin_call(&mut self.plan)?;
        put_row(&mut self.rows.drafts, row)?;
        Ok(())
    }

    fn put_book(&mut self, row: &BookRow) -> Result<(), OutError>
        ensures done { OnOk result (self.new.rows ≡ with_book row.now self.old.rows) }
        ensures unchanged { OnErr result (self.new.rows ≡ self.old.rows) }
        ensures in_order { IsInOrder self.old.rows → IsInOrder self.new.rows }
        ensures count { HasCause result (faults_of self.old.plan) (faults_of self.new.plan) }
        ensures goes { GoesByPlan result self.old.plan self.new.plan }
    {
        begin_call(&mut self.plan)?;
        put_row(&mut self.rows.books, row)?;
        Ok(())
    }

    fn put_order(&mut self, row: &OrderRow) -> Result<(), OutError>
        ensures done { OnOk result (self.new.rows ≡ with_order row.now self.old.rows) }
        ensures unchanged { OnErr result (self.new.rows ≡ self.old.rows) }
        ensures in_order { IsInOrder self.old.rows → IsInOrder self.new.rows }
        ensures count { HasCause result (faults_of self.old.plan) (faults_of self.new.plan) }
        ensures goes { GoesByPlan result self.old.plan self.new.plan }
    {
        begin_call(&mut self.plan)?;
        put_row(&mut self.rows.orders, row)?;
        Ok(())
    }

    fn put_withdrawn(&mut self, number: u64) -> Result<(), OutError>
        ensures done { OnOk result (self.new.rows ≡ with_withdrawn number self.old.rows) }
        ensures unchanged { OnErr result (self.new.rows ≡ self.old.rows) }
        ensures in_order { IsInOrder self.old.rows → IsInOrder self.new.rows }
        ensures count { HasCause result (faults_of self.old.plan) (faults_of self.new.plan) }
        ensures goes { GoesByPlan result self.old.plan self.new.plan }
    {
        begin_call(&mut self.plan)?;
        put_row(&mut self.rows.withdrawn, &number)?;
        Ok(())
    }

    fn migrate(&mut self) -> Result<(), OutError>
        ensures done { OnOk result (self.new.rows ≡ migrated self.old.rows) }
        ensures unchanged { OnErr result (self.new.rows ≡ self.old.rows) }
        ensures no_memory { result ≢ Err OutError.Memory }
        ensures count { HasCause result (faults_of self.old.plan) (faults_of self.new.plan) }
        ensures goes { GoesByPlan result self.old.plan self.new.plan }
    {
        begin_call(&mut self.plan)?;
        if self.rows.form == 1 {
            self.rows.form = 2;
        }
        Ok(())
    }

    fn faults(&self) -> u64 {
        self.plan.faults()
    }
}
