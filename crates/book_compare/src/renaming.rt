//! The clauses of the second book, with the variables that its codes have beside those of the first.
ghost use Rattle.std.specs.Prelude.{◌≡◌, ◌+◌, ◌++◌, ◌<◌, ◌^◌, All, IfOk, IfSome, OnOk, length, map};
ghost use Rattle.std.specs.Option.{option_map};
ghost use Rattle.book_model.specs.Book.{DemandFits};
ghost use Rattle.clausify.specs.Formulas.{connectives};
ghost use Rattle.clausify.specs.Items.{supplement_item, demand_item, construct_item, supplement_items, construct_items, rule_items, variables_of};
ghost use Rattle.clausify.specs.Choices.{active_variants, is_active_variant, usage};
ghost use Rattle.clausify.specs.Encoding.{EncodesItem, EncodesItems};
ghost use Rattle.book_compare.specs.JointItems.{number_at, renamed_item, day_variants, renamed_usage, renamed_usage_items, renamed_usages};

use book_model::{Book, Demand, Supplement, active};
use clausify::{Encoder, Usage};
use pb_base::{Day, Formula, Memory, Renamed};
use std::alloc::Global;

// The variables of these codes.
fn renamed_codes(alloc: Global, codes: &[u32], numbers: &[u32]) -> Result<Vec<u32>, Memory>
    requires { All (λ code. code < length numbers.now) codes.now }
    ensures { IfOk result (λ renamed. renamed.items ≡ map (number_at numbers.now) codes.now) }
{
    let mut renamed = Vec::with_capacity(alloc, codes.len())?;
    for code in codes {
        renamed.push(numbers[*code as usize])?;
    }
    Ok(renamed)
}

fn renamed_on(on: Option<u32>, numbers: &[u32]) -> Option<u32>
    requires { IfSome on (λ code. code < length numbers.now) }
    ensures { result ≡ option_map (number_at numbers.now) on }
{
    match on {
        Some(code) => Some(numbers[code as usize]),
        None => None,
    }
}

fn add_supplement(
    alloc: Global,
    encoder: &mut Encoder,
    supplement: &Supplement,
    numbers: &[u32],
) -> Result<(), Memory>
    requires code { supplement.now.code < length numbers.now }
    requires room { let item = renamed_item numbers.now (supplement_item supplement.now) in
        encoder.old.next + connectives item.rule < 2 ^ 32 }
    ensures { OnOk result (EncodesItem encoder.old encoder.new
        (renamed_item numbers.now (supplement_item supplement.now))) }
{
    let rule = supplement.rule.with_leaves(alloc, &Renamed(numbers))?;
    encoder.supplement(numbers[supplement.code as usize], &rule)
}

fn add_demand(
    alloc: Global,
    encoder: &mut Encoder,
    demand: &Demand,
    numbers: &[u32],
) -> Result<(), Memory>
    requires fits { DemandFits (length numbers.now) demand.now }
    requires room { let item = renamed_item numbers.now (demand_item demand.now) in
        encoder.old.next + connectives item.rule < 2 ^ 32 }
    ensures { OnOk result (EncodesItem encoder.old encoder.new (renamed_item numbers.now (demand_item demand.now))) }
{
    match demand {
        Demand::Rule { on, rule } => {
            let rule = rule.with_leaves(alloc, &Renamed(numbers))?;
            encoder.rule_on(renamed_on(*on, numbers), &rule)
        }
        Demand::One(group) => {
            let codes = renamed_codes(alloc, group.codes(), numbers)?;
            encoder.any_of(&codes)?;
            encoder.apart(&codes)
        }
        Demand::Most(group) => {
            let codes = renamed_codes(alloc, group.codes(), numbers)?;
            encoder.apart(&codes)
        }
    }
}

fn add_supplements(
    alloc: Global,
    encoder: &mut Encoder,
    book: &Book,
    day: Day,
    numbers: &[u32],
) -> Result<(), Memory>
    requires numbers { length numbers.now ≡ length book.now.codes }
    requires room { let items = map (renamed_item numbers.now) (supplement_items book.now day) in
        encoder.old.next + variables_of items < 2 ^ 32 }
    ensures { let items = map (renamed_item numbers.now) (supplement_items book.now day) in
        OnOk result (EncodesItems encoder.old encoder.new items) }
{
    for supplement in book.supplements() {
        if active(supplement.from, supplement.until, day) {
            add_supplement(alloc, encoder, supplement, numbers)?;
        }
    }
    Ok(())
}

fn add_constructs(
    alloc: Global,
    encoder: &mut Encoder,
    book: &Book,
    day: Day,
    numbers: &[u32],
) -> Result<(), Memory>
    requires numbers { length numbers.now ≡ length book.now.codes }
    requires room { let items = map (renamed_item numbers.now) (construct_items book.now day) in
        encoder.old.next + variables_of items < 2 ^ 32 }
    ensures { let items = map (renamed_item numbers.now) (construct_items book.now day) in
        OnOk result (EncodesItems encoder.old encoder.new items) }
{
    for construct in book.constructs() {
        if active(construct.from, construct.until, day) {
            add_demand(alloc, encoder, &construct.demand, numbers)?;
        }
    }
    Ok(())
}

/// The rules that are active on a day, the supplementing rules first.
pub(crate) fn add_renamed_rules(
    alloc: Global,
    encoder: &mut Encoder,
    book: &Book,
    day: Day,
    numbers: &[u32],
) -> Result<(), Memory>
    requires numbers { length numbers.now ≡ length book.now.codes }
    requires room { let items = map (renamed_item numbers.now) (rule_items book.now day) in
        encoder.old.next + variables_of items < 2 ^ 32 }
    ensures { let items = map (renamed_item numbers.now) (rule_items book.now day) in
        OnOk result (EncodesItems encoder.old encoder.new items) }
{
    add_supplements(alloc, encoder, book, day, numbers)?;
    add_constructs(alloc, encoder, book, day, numbers)?;
    Ok(())
}

// The places of the active variants of the active positions.
fn day_variants(alloc: Global, book: &Book, day: Day) -> Result<Vec<u32>, Memory>
    ensures { IfOk result (λ variants. variants.items ≡ day_variants book.now day) }
{
    let mut variants = Vec::new(alloc);
    for (place, position) in book.positions().iter().enumerate() {
        if active(position.from, position.until, day) {
            push_active(&mut variants, book, day, place as u32)?;
        }
    }
    Ok(variants)
}

/// The places of the active variants of the position at a place, behind the others.
pub(crate) fn push_active(
    variants: &mut Vec<u32>,
    book: &Book,
    day: Day,
    position: u32,
) -> Result<(), Memory>
    requires { position < length book.now.positions }
    ensures { OnOk result (variants.new.items ≡ variants.old.items ++ active_variants book.now day position) }
{
    for at in book.variants_of(position) {
        if is_active(book, day, *at) {
            variants.push(*at)?;
        }
    }
    Ok(())
}

// Whether the variant at a place is active.
fn is_active(book: &Book, day: Day, variant: u32) -> bool
    requires { variant < length book.now.variants }
    ensures { result ≡ is_active_variant book.now day variant }
{
    let variant = &book.variants()[variant as usize];
    active(variant.from, variant.until, day)
}

// The formula of the variant at a place.
fn usage_of(book: &Book, variant: u32) -> &Formula
    requires { variant < length book.now.variants }
    ensures { result.now ≡ usage book.now variant }
{
    &book.variants()[variant as usize].rule
}

/// The usages of the active variants of the positions that are active on a day, in order.
pub(crate) fn add_renamed_usages(
    alloc: Global,
    encoder: &mut Encoder,
    book: &Book,
    day: Day,
    numbers: &[u32],
) -> Result<Vec<Usage>, Memory>
    requires room { let items = renamed_usage_items numbers.now book.now (day_variants book.now day) in
        encoder.old.next + variables_of items < 2 ^ 32 }
    ensures made { let items = renamed_usage_items numbers.now book.now (day_variants book.now day) in
        OnOk result (EncodesItems encoder.old encoder.new items) }
    ensures usages { let usages = renamed_usages numbers.now book.now encoder.old.truth encoder.old.next
        (day_variants book.now day) in
        IfOk result (λ us. us.items ≡ usages) }
{
    let variants = day_variants(alloc, book, day)?;
    let usages = add_usages_of(alloc, encoder, book, &variants, numbers)?;
    Ok(usages)
}

// The same of the variants at these places.
fn add_usages_of(
    alloc: Global,
    encoder: &mut Encoder,
    book: &Book,
    variants: &[u32],
    numbers: &[u32],
) -> Result<Vec<Usage>, Memory>
    requires in_range { All (λ v. v < length book.now.variants) variants.now }
    requires room { let items = renamed_usage_items numbers.now book.now variants.now in
        encoder.old.next + variables_of items < 2 ^ 32 }
    ensures made { let items = renamed_usage_items numbers.now book.now variants.now in
        OnOk result (EncodesItems encoder.old encoder.new items) }
    ensures usages { let usages = renamed_usages numbers.now book.now encoder.old.truth encoder.old.next variants.now in
        IfOk result (λ us. us.items ≡ usages) }
{
    let mut usages = Vec::with_capacity(alloc, variants.len())?;
    for variant in variants {
        let rule = usage_of(book, *variant).with_leaves(alloc, &Renamed(numbers))?;
        let literal = encoder.literal(&rule)?;
        usages.push(Usage {
            variant: *variant,
            literal,
        })?;
    }
    Ok(usages)
}
