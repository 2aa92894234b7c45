//! The start of a desk from the rows that are kept.
ghost use Rattle.std.specs.Prelude.{if◌then◌else◌, ◌≡◌, ◌⊎◌, IfErr, IfOk, IfSome, OnErr, OnOk, None, Some};
ghost use Rattle.std.specs.Option.{option_map};
ghost use Rattle.pb_base.specs.Answers.{Changes, IfRefused};
ghost use Rattle.pb_outside.specs.Faults.{IsLater, raised};
ghost use Rattle.keeper.specs.Causes.{HasCause};
ghost use Rattle.keeper.specs.Rows.{begun, kept_of, migrated};
ghost use Rattle.order_desk.specs.RightRows.{bad_form, first_bad};
ghost use Rattle.order_desk.specs.Rows.{rows_of};
ghost use Rattle.order_desk.specs.Start.{IsBegun, IsCause, IsLeft, loaded, store_fault, tables_in};
ghost use Rattle.order_desk.specs.Tables.{Tables};
ghost use Rattle.order_desk.specs.Valid.{IsValid};

use crate::book_rows::books_of;
use crate::draft_rows::drafts_of;
use crate::order_rows::orders_of;
use crate::withdrawn_rows::withdraw_all;
use crate::{Desk, Draft, Hands, KeptBook, OneHand, OrderKey};
use desk_words::OrderWords;
use keeper::{Keeper, Rows};
use pb_base::{Fail, Id};
use pb_outside::OutError;
use std::alloc::Global;
use std::collections::BTreeMap;

/// Why a desk isn't started.
#[derive(Clone, Copy, Debug, PartialEq, Eq)]
pub enum StartFault {
    /// A call of the keeper failed, with its counts of faults before and after.
    Store { before: u64, after: u64 },
    /// The first row that isn't right: its table, 0 form, 1 drafts, 2 books, 3 orders, 4 withdrawn, and its place in it, from 1,
    /// or 0 for the form.
    BadRow { table: u32, place: u32 },
}

/// A start that was refused, and the keeper.
pub struct NotStarted<P> {
    pub why: Fail<StartFault>,
    pub keeper: P,
}

/// The tables that were read from rows.
#[derive(Drop)]
pub(crate) struct ReadTables {
    pub(crate) drafts: BTreeMap<Id, Draft>,
    pub(crate) books: Vec<KeptBook>,
    pub(crate) orders: BTreeMap<OrderKey, OrderWords>,
}

// The place of a row that isn't right.
#[derive(Clone, Copy)]
struct BadPlace {
    table: u32,
    place: u32,
}

impl<P: Keeper> Desk<P> {
    /// Begins the keeper, loads its rows, tests them, and has them migrated where their form is 1. Each certificate is checked
    /// and each order judged again. A row that isn't right leaves the keeper begun and not migrated.
    pub fn start(alloc: Global, keeper: P, name: &str) -> Result<Desk<P>, NotStarted<P>>
        requires { P.may_begin keeper name.now }
        ensures rows { IfOk result (λ desk. IfSome (P.told keeper)
            (λ rows. rows_of desk.tables ≡ migrated (begun rows))) }
        ensures right { IfOk result (λ desk.
            IfSome (P.told keeper) (λ rows. first_bad (begun rows) ≡ None)) }
        ensures valid { IfOk result (λ desk. IsValid desk.tables) }
        ensures count { IfOk result (λ desk. desk.faults.count ≡ (P.failures keeper).count) }
        ensures calls { IfOk result (λ desk. IsBegun (P.told keeper) (P.calls keeper) desk.calls) }
        ensures later { IfOk result (λ desk. IsLater (P.failures keeper) desk.faults) }
        ensures cause { IfErr result (λ n.
            IsCause (P.told keeper) (P.failures keeper) (P.failures n.keeper) n.why) }
        ensures left { IfErr result (λ n. IsLeft (P.told keeper) (P.told n.keeper) n.why) }
        ensures later_count { IfErr result (λ n. IsLater (P.failures keeper) (P.failures n.keeper)) }
    {
        Desk::start_by(alloc, &OneHand, keeper, name)
    }

    /// The same start, in which these hands check the certificates and judge the orders.
    pub fn start_by<H: Hands>(
        alloc: Global,
        hands: &H,
        keeper: P,
        name: &str,
    ) -> Result<Desk<P>, NotStarted<P>>
        requires ready { H.AreReady hands.now }
        requires named { P.may_begin keeper name.now }
        ensures rows { IfOk result (λ desk. IfSome (P.told keeper)
            (λ rows. rows_of desk.tables ≡ migrated (begun rows))) }
        ensures right { IfOk result (λ desk.
            IfSome (P.told keeper) (λ rows. first_bad (begun rows) ≡ None)) }
        ensures valid { IfOk result (λ desk. IsValid desk.tables) }
        ensures count { IfOk result (λ desk. desk.faults.count ≡ (P.failures keeper).count) }
        ensures calls { IfOk result (λ desk. IsBegun (P.told keeper) (P.calls keeper) desk.calls) }
        ensures later { IfOk result (λ desk. IsLater (P.failures keeper) desk.faults) }
        ensures cause { IfErr result (λ n.
            IsCause (P.told keeper) (P.failures keeper) (P.failures n.keeper) n.why) }
        ensures left { IfErr result (λ n. IsLeft (P.told keeper) (P.told n.keeper) n.why) }
        ensures later_count { IfErr result (λ n. IsLater (P.failures keeper) (P.failures n.keeper)) }
    {
        let mut keeper = keeper;
        match read_from(alloc, hands, &mut keeper, name) {
            Ok(tables) => Ok(Desk::of(keeper, tables)),
            Err(why) => Err(NotStarted { why, keeper }),
        }
    }
}

// The tables of the keeper's rows, which it has begun and migrated.
#[tactic(auto, using(crate::proofs::StartCalls::begun_calls))]
fn read_from<P: Keeper, H: Hands>(
    alloc: Global,
    hands: &H,
    keeper: &mut P,
    name: &str,
) -> Result<ReadTables, Fail<StartFault>>
    requires ready { H.AreReady hands.now }
    requires named { P.may_begin keeper.old name.now }
    ensures rows { IfOk result (λ read. IfSome (P.told keeper.old)
        (λ rows. rows_of (tables_in read) ≡ migrated (begun rows))) }
    ensures right { IfOk result (λ read.
        IfSome (P.told keeper.old) (λ rows. first_bad (begun rows) ≡ None)) }
    ensures valid { IfOk result (λ read. IsValid (tables_in read)) }
    ensures told { OnOk result
        (P.told keeper.new ≡ option_map migrated (option_map begun (P.told keeper.old))) }
    ensures count { OnOk result ((P.failures keeper.new).count ≡ (P.failures keeper.old).count) }
    ensures calls { OnOk result (IsBegun (P.told keeper.old) (P.calls keeper.old) (P.calls keeper.new)) }
    ensures cause { IfErr result (λ why.
        IsCause (P.told keeper.old) (P.failures keeper.old) (P.failures keeper.new) why) }
    ensures left { IfErr result (λ why. IsLeft (P.told keeper.old) (P.told keeper.new) why) }
    ensures later { IsLater (P.failures keeper.old) (P.failures keeper.new) }
{
    let before = keeper.faults();
    match load_from(keeper, name) {
        Err(error) => Err(failed(error, before, keeper.faults())),
        Ok(rows) => {
            let form = rows.form;
            match tables_of(alloc, hands, rows) {
                Err(Fail::Refused(BadPlace { table, place })) => {
                    Err(Fail::Refused(StartFault::BadRow { table, place }))
                }
                Err(Fail::Memory) => Err(Fail::Memory),
                Ok(tables) => match migrate_from(keeper, form) {
                    Ok(()) => Ok(tables),
                    Err(error) => Err(failed(error, before, keeper.faults())),
                },
            }
        }
    }
}

// The rows of the keeper, which it has begun.
fn load_from<P: Keeper>(keeper: &mut P, name: &str) -> Result<Rows, OutError>
    requires { P.may_begin keeper.old name.now }
    ensures rows { IfOk result (λ rows. IfSome (P.told keeper.old) (λ kept. kept_of rows ≡ begun kept)) }
    ensures told { OnOk result (P.told keeper.new ≡ option_map begun (P.told keeper.old)) }
    ensures left { (P.told keeper.new ≡ P.told keeper.old)
        ⊎ (P.told keeper.new ≡ option_map begun (P.told keeper.old)) }
    ensures count { HasCause result (P.failures keeper.old) (P.failures keeper.new) }
    ensures calls { OnOk result (P.calls keeper.new ≡ loaded (P.calls keeper.old)) }
{
    keeper.begin(name)?;
    keeper.load()
}

// Has rows of form 1 migrated.
fn migrate_from<P: Keeper>(keeper: &mut P, form: u64) -> Result<(), OutError>
    requires { IfSome (P.told keeper.old) (λ rows. rows.form ≡ form) }
    ensures done { OnOk result (P.told keeper.new ≡ option_map migrated (P.told keeper.old)) }
    ensures unchanged { OnErr result (P.told keeper.new ≡ P.told keeper.old) }
    ensures count { HasCause result (P.failures keeper.old) (P.failures keeper.new) }
    ensures calls { (P.calls keeper.new ≡ P.calls keeper.old)
        ⊎ ((form ≡ 1) × (P.calls keeper.new ≡ option_map raised (P.calls keeper.old))) }
{
    if form == 1 { keeper.migrate() } else { Ok(()) }
}

// How a call of the keeper that gave nothing is told.
fn failed(error: OutError, before: u64, after: u64) -> Fail<StartFault>
    ensures { result ≡ store_fault error before after }
{
    match error {
        OutError::Failed => Fail::Refused(StartFault::Store { before, after }),
        OutError::Memory => Fail::Memory,
    }
}

// The tables of the rows, or the first row that isn't right.
fn tables_of<H: Hands>(alloc: Global, hands: &H, rows: Rows) -> Result<ReadTables, Fail<BadPlace>>
    requires { H.AreReady hands.now }
    ensures right { IfOk result (λ read. first_bad (kept_of rows) ≡ None) }
    ensures rows { IfOk result (λ read. rows_of (tables_in read) ≡ migrated (kept_of rows)) }
    ensures valid { IfOk result (λ read. IsValid (tables_in read)) }
    ensures wrong { IfRefused result (λ bad. first_bad (kept_of rows) ≡ Some (bad.table, bad.place)) }
{
    let Rows {
        form,
        drafts,
        books,
        orders,
        withdrawn,
    } = rows;
    if !is_form(form) {
        return Err(Fail::Refused(BadPlace { table: 0, place: 0 }));
    }
    let drafts = match drafts_of(alloc, drafts) {
        Ok(drafts) => drafts,
        Err(fail) => return Err(in_table(1, fail)),
    };
    let mut books = match books_of(alloc, hands, &drafts, books) {
        Ok(books) => books,
        Err(fail) => return Err(in_table(2, fail)),
    };
    let orders = match orders_of(alloc, hands, &books, orders) {
        Ok(orders) => orders,
        Err(fail) => return Err(in_table(3, fail)),
    };
    match withdraw_all(form, &mut books, &withdrawn) {
        Ok(()) => Ok(ReadTables {
            drafts,
            books,
            orders,
        }),
        Err(place) => Err(Fail::Refused(BadPlace { table: 4, place })),
    }
}

// Whether a store has such a form.
fn is_form(form: u64) -> bool
    ensures { bad_form form ≡ (if result then None else Some (0, 0)) }
{
    form == 1 || form == 2
}

// A place in a table as one among all rows.
fn in_table(table: u32, fail: Fail<u32>) -> Fail<BadPlace>
    ensures { Changes fail (λ place bad. bad ≡ record { table = table; place = place }) result }
{
    fail.map(|place| BadPlace { table, place })
}

/// What holds of the rows of all valid tables: they are right, so that no desk is refused by what it kept itself, and they tell
/// the tables. The call does nothing.
pub fn row_laws()
    ensures own { (t : Tables) → IsValid t → first_bad (rows_of t) ≡ None }
    ensures tell { (t u : Tables) → rows_of t ≡ rows_of u → IsValid t → IsValid u → t ≡ u }
{}
