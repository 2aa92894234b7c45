//! The clauses of all rules of a book, and of all its variants' formulas.
ghost use Rattle.std.specs.Prelude.{◌≡◌, ◌+◌, ◌*◌, ◌^◌, ◌<◌, ◌≤◌, ◌++◌, [], List, IfOk, OnOk, length, map};
ghost use Rattle.book_model.specs.Book.{IsBook};
ghost use Rattle.clause_pool.specs.Clause.{AreBelow};
ghost use Rattle.clausify.specs.Formulas.{literals_from};
ghost use Rattle.guarded_rules.specs.Guarded.{GuardedItem, IsGuarded};
ghost use Rattle.pb_base.specs.declared.limits.TheConstants.{MOST_NODES};
ghost use Rattle.book_clauses.specs.BookClauses.{AreUsages, CodesBook};
ghost use Rattle.book_clauses.specs.Coding.{book_rules, free_usages, guarded_supplements};

use crate::periods::{guard_of, periods_of};
use book_model::{Book, Slice};
use clause_pool::{Lit, Pool};
use clausify::{Encoded, Encoder, Layout, Start};
use guarded_rules::{add_guarded_demand, add_guarded_supplement};
use pb_base::Memory;
use std::alloc::Global;

/// The clauses of a book.
#[derive(Drop)]
pub struct BookClauses {
    pub pool: Pool,
    /// The number of variables.
    pub vars: u32,
    /// All variables that join two literals, and where the variants' formulas begin, in order, and end.
    pub layout: Layout,
    /// By the place of a variant, the literal of its formula.
    pub usages: Vec<Lit>,
    /// The periods of rules. The variables behind those of the codes are theirs, in this order.
    pub periods: Vec<Slice>,
}

/// The clauses of a book.
pub fn book_clauses(alloc: Global, book: &Book) -> Result<BookClauses, Memory>
    ensures codes { IfOk result (λ c. CodesBook book.now c.periods.items c.pool.clauses) }
    ensures below { IfOk result (λ c. AreBelow (2 * c.vars) c.pool.clauses) }
    ensures periods { IfOk result (λ c. length book.now.codes + length c.periods.items < c.vars) }
    ensures usages { IfOk result (λ c. AreUsages book.now c.pool.clauses c.vars c.usages.items) }
    ensures counted { IfOk result (λ c. length c.usages.items ≡ length book.now.variants) }
{
    let periods = periods_of(alloc, book)?;
    let mut encoder = begin(alloc, book, &periods)?;
    add_supplements(&mut encoder, book, &periods)?;
    add_constructs(&mut encoder, book, &periods)?;
    let mut starts = Vec::new(alloc);
    let usages = add_usages(alloc, &mut encoder, &mut starts, book)?;
    let goals = encoder.start();
    let Encoded { pool, vars, gates } = encoder.into_parts();
    Ok(BookClauses {
        pool,
        vars,
        layout: Layout {
            gates,
            starts,
            goals,
        },
        usages,
        periods,
    })
}

// An encoder over the codes and the periods.
fn begin(alloc: Global, book: &Book, periods: &[Slice]) -> Result<Encoder, Memory>
    requires few { length periods.now ≤ length book.now.supplements + length book.now.constructs }
    ensures none { IfOk result (IsGuarded []) }
    ensures truth { IfOk result (λ e. e.truth ≡ length book.now.codes + length periods.now) }
    ensures next { IfOk result (λ e. e.next ≡ e.truth + 1) }
    ensures book { IfOk result (λ e. IsBook book.now) }
    ensures room { IfOk result (λ e. e.next + MOST_NODES * length book.now.supplements
        + MOST_NODES * length book.now.constructs + MOST_NODES * length book.now.variants < 2 ^ 32) }
{
    book.supplements();
    book.constructs();
    book.variants();
    let codes = book.codes().len() + periods.len() as u32;
    Encoder::new(alloc, codes)
}

// The supplementing rules.
fn add_supplements(encoder: &mut Encoder, book: &Book, periods: &[Slice]) -> Result<(), Memory>
    requires few { length book.now.codes + length periods.now < 2 ^ 32 }
    requires none { IsGuarded [] encoder.old }
    requires room { encoder.old.next + MOST_NODES * length book.now.supplements < 2 ^ 32 }
    ensures made { OnOk result (IsGuarded (guarded_supplements book.now periods.now) encoder.new) }
    ensures truth { OnOk result (encoder.new.truth ≡ encoder.old.truth) }
    ensures next { OnOk result (encoder.new.next ≤ encoder.old.next + MOST_NODES * length book.now.supplements) }
{
    for supplement in book.supplements() {
        let days = Slice {
            first: supplement.from,
            last: supplement.until,
        };
        let guard = guard_of(book, periods, days);
        add_guarded_supplement(encoder, guard, supplement.code, &supplement.rule)?;
    }
    Ok(())
}

// The constructibility rules, behind those.
fn add_constructs(encoder: &mut Encoder, book: &Book, periods: &[Slice]) -> Result<(), Memory>
    requires few { length book.now.codes + length periods.now < 2 ^ 32 }
    requires supplements { IsGuarded (guarded_supplements book.now periods.now) encoder.old }
    requires room { encoder.old.next + MOST_NODES * length book.now.constructs < 2 ^ 32 }
    ensures made { OnOk result (IsGuarded (book_rules book.now periods.now) encoder.new) }
    ensures truth { OnOk result (encoder.new.truth ≡ encoder.old.truth) }
    ensures next { OnOk result (encoder.new.next ≤ encoder.old.next + MOST_NODES * length book.now.constructs) }
{
    for construct in book.constructs() {
        let days = Slice {
            first: construct.from,
            last: construct.until,
        };
        let guard = guard_of(book, periods, days);
        add_guarded_demand(encoder, guard, &construct.demand)?;
    }
    Ok(())
}

// The formulas of all variants, each with its literal. Where they begin is put down.
fn add_usages(
    alloc: Global,
    encoder: &mut Encoder,
    starts: &mut Vec<Start>,
    book: &Book,
) -> Result<Vec<Lit>, Memory>
    requires room { encoder.old.next + MOST_NODES * length book.now.variants < 2 ^ 32 }
    ensures made { (is : List GuardedItem) → IsGuarded is encoder.old
        → OnOk result (IsGuarded (is ++ free_usages book.now) encoder.new) }
    ensures truth { OnOk result (encoder.new.truth ≡ encoder.old.truth) }
    ensures usages { IfOk result (λ lits. lits.items
        ≡ literals_from encoder.old.truth encoder.old.next (map (λ v. v.rule) book.now.variants)) }
{
    let mut usages = Vec::new(alloc);
    for variant in book.variants() {
        starts.push(encoder.start())?;
        let usage = encoder.literal(&variant.rule)?;
        usages.push(usage)?;
    }
    Ok(usages)
}
