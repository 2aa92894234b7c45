//! The clauses of two books over one numbering of their codes.
ghost use Rattle.std.specs.Prelude.{◌≡◌, ℕ, ◌+◌, ◌++◌, ◌<◌, ◌^◌, [], ◌∷◌, true, IfOk, OnOk, is_none, length, map};
ghost use Rattle.clause_pool.specs.Clause.{clause_of};
ghost use Rattle.clause_pool.specs.Literal.{literal};
ghost use Rattle.pb_base.specs.Names.{place_in};
ghost use Rattle.clausify.specs.Choices.{choices};
ghost use Rattle.clausify.specs.Encoding.{EncodesItem, EncodesItems};
ghost use Rattle.clausify.specs.Goals.{all_usages};
ghost use Rattle.clausify.specs.Items.{items, rule_items, variables_of};
ghost use Rattle.book_compare.specs.Numbering.{numbers_of, further, missing_from, added_from, alone};
ghost use Rattle.book_compare.specs.JointItems.{absent_item, absent_items, renamed_item, renamed_usage_items, renamed_usages, day_variants, joint_items, second_items, first_variable, first_rules_at, first_usages_at, second_rules_at, second_usages_at, first_usages, second_usages, IsJoint};

use crate::numbering::Numbering;
use crate::renaming::{add_renamed_rules, add_renamed_usages};
use book_model::Book;
use clause_pool::{Lit, Pool};
use clausify::{Encoded, Encoder, Usage, add_rules, usages_of};
use pb_base::{CodeName, CodeTable, Day, Memory};
use std::alloc::Global;

/// The clauses of two books on a day, the literals of their usages, and the variables of the second book's codes.
#[derive(Drop)]
pub(crate) struct Joint {
    pub(crate) pool: Pool,
    pub(crate) vars: u32,
    pub(crate) first: Vec<Usage>,
    pub(crate) second: Vec<Usage>,
    pub(crate) numbers: Vec<u32>,
}

// The literals of the usages alone.
#[derive(Drop)]
struct BothUsages {
    first: Vec<Usage>,
    second: Vec<Usage>,
}

impl Joint {
    /// The clauses of two books.
    pub(crate) fn of(alloc: Global, first: &Book, second: &Book, day: Day) -> Result<Joint, Memory>
        ensures { IfOk result (IsJoint first.now second.now day) }
    {
        let numbering = Numbering::of(alloc, first.codes(), second.codes())?;
        let mut encoder = begun(alloc, first, second, numbering.further)?;
        let usages = encode(alloc, &mut encoder, first, second, day, &numbering.numbers)?;
        Ok(Joint::with(encoder, usages, numbering))
    }

    fn with(encoder: Encoder, usages: BothUsages, numbering: Numbering) -> Joint
        ensures clauses { result.pool.clauses ≡ encoder.pool.clauses }
        ensures vars { result.vars ≡ encoder.next }
        ensures first { result.first.items ≡ usages.first.items }
        ensures second { result.second.items ≡ usages.second.items }
        ensures numbers { result.numbers.items ≡ numbering.numbers.items }
    {
        let Encoded {
            pool,
            vars,
            gates: _gates,
        } = encoder.into_parts();
        let BothUsages { first, second } = usages;
        Joint {
            pool,
            vars,
            first,
            second,
            numbers: numbering.numbers,
        }
    }
}

// An encoder over the codes of both books, of which so many are the second's alone.
fn begun(alloc: Global, first: &Book, second: &Book, alone: u32) -> Result<Encoder, Memory>
    requires { alone ≡ further first.now.codes second.now.codes }
    ensures clauses { IfOk result (λ m. m.pool.clauses
        ≡ clause_of (literal (length first.now.codes) true ∷ []) ∷ []) }
    ensures truth { IfOk result (λ m. m.truth ≡ length first.now.codes) }
    ensures next { IfOk result (λ m. m.next ≡ first_variable first.now second.now) }
    ensures few { (day : ℕ) → IfOk result (λ m. m.next + variables_of (joint_items first.now second.now day) < 2 ^ 32) }
{
    let codes = first.codes();
    let _others = second.codes();
    let encoder = Encoder::with_further(alloc, codes.len(), alone)?;
    Ok(encoder)
}

fn encode(
    alloc: Global,
    encoder: &mut Encoder,
    first: &Book,
    second: &Book,
    day: Day,
    numbers: &[u32],
) -> Result<BothUsages, Memory>
    requires truth { encoder.old.truth ≡ length first.now.codes }
    requires next { encoder.old.next ≡ first_variable first.now second.now }
    requires numbers { numbers.now ≡ numbers_of first.now.codes second.now.codes }
    requires room { encoder.old.next + variables_of (joint_items first.now second.now day) < 2 ^ 32 }
    ensures made { OnOk result (EncodesItems encoder.old encoder.new (joint_items first.now second.now day)) }
    ensures first { IfOk result (λ us. us.first.items ≡ first_usages first.now second.now day) }
    ensures second { IfOk result (λ us. us.second.items ≡ second_usages first.now second.now day) }
{
    add_absent(encoder, first.codes(), second.codes())?;
    let first = add_first(alloc, encoder, first, day)?;
    let second = add_second(alloc, encoder, second, day, numbers)?;
    Ok(BothUsages { first, second })
}

// The rules and usages of the first book.
fn add_first(
    alloc: Global,
    encoder: &mut Encoder,
    book: &Book,
    day: Day,
) -> Result<Vec<Usage>, Memory>
    requires truth { encoder.old.truth ≡ length book.now.codes }
    requires room { encoder.old.next + variables_of (items book.now day) < 2 ^ 32 }
    ensures made { OnOk result (EncodesItems encoder.old encoder.new (items book.now day)) }
    ensures usages { let start = encoder.old.next + variables_of (rule_items book.now day) in
        IfOk result (λ us. us.items ≡ all_usages book.now encoder.old.truth start (choices book.now day)) }
{
    let mut starts = Vec::new(alloc);
    add_rules(encoder, &mut starts, book, day)?;
    let usages = usages_of(alloc, encoder, &mut starts, book, day)?;
    Ok(usages)
}

// The rules and usages of the second book.
fn add_second(
    alloc: Global,
    encoder: &mut Encoder,
    book: &Book,
    day: Day,
    numbers: &[u32],
) -> Result<Vec<Usage>, Memory>
    requires numbers { length numbers.now ≡ length book.now.codes }
    requires room { let rules = map (renamed_item numbers.now) (rule_items book.now day) in
        let usages = renamed_usage_items numbers.now book.now (day_variants book.now day) in
        encoder.old.next + variables_of (rules ++ usages) < 2 ^ 32 }
    ensures made { let rules = map (renamed_item numbers.now) (rule_items book.now day) in
        let usages = renamed_usage_items numbers.now book.now (day_variants book.now day) in
        OnOk result (EncodesItems encoder.old encoder.new (rules ++ usages)) }
    ensures usages { let rules = map (renamed_item numbers.now) (rule_items book.now day) in
        let start = encoder.old.next + variables_of rules in
        IfOk result (λ us. us.items
        ≡ renamed_usages numbers.now book.now encoder.old.truth start (day_variants book.now day)) }
{
    add_renamed_rules(alloc, encoder, book, day, numbers)?;
    let usages = add_renamed_usages(alloc, encoder, book, day, numbers)?;
    Ok(usages)
}

// No code is present that only one of the books has.
fn add_absent(encoder: &mut Encoder, first: &CodeTable, second: &CodeTable) -> Result<(), Memory>
    requires { length first.now + 1 + length second.now < 2 ^ 32 }
    ensures { OnOk result (EncodesItems encoder.old encoder.new (map absent_item (alone first.now second.now))) }
{
    add_missing(encoder, first, second)?;
    add_added(encoder, first, second)?;
    Ok(())
}

// The codes of the first book that the second lacks.
fn add_missing(encoder: &mut Encoder, first: &CodeTable, second: &CodeTable) -> Result<(), Memory>
    ensures { let missing = missing_from 0 second.now first.now in
        OnOk result (EncodesItems encoder.old encoder.new (map absent_item missing)) }
{
    for place in 0..first.len() {
        if lacks(second, first.name_of(place)) {
            add_absent_code(encoder, place)?;
        }
    }
    Ok(())
}

// The codes of the second book that the first lacks.
fn add_added(encoder: &mut Encoder, first: &CodeTable, second: &CodeTable) -> Result<(), Memory>
    requires { length first.now + 1 + length second.now < 2 ^ 32 }
    ensures { let added = added_from (length first.now + 1) first.now second.now in
        OnOk result (EncodesItems encoder.old encoder.new (map absent_item added)) }
{
    let mut next = first.len() + 1;
    for place in 0..second.len() {
        if lacks(first, second.name_of(place)) {
            add_absent_code(encoder, next)?;
            next += 1;
        }
    }
    Ok(())
}

// Whether a book has no code of this name.
fn lacks(codes: &CodeTable, name: &CodeName) -> bool
    ensures { result ≡ is_none (place_in codes.now name.now) }
{
    codes.place_of(name).is_none()
}

fn add_absent_code(encoder: &mut Encoder, variable: u32) -> Result<(), Memory>
    ensures { OnOk result (EncodesItem encoder.old encoder.new (absent_item variable)) }
{
    encoder.clause(&[Lit::new(variable, true).not()])
}
