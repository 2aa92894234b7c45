//! The second pass, over what the rows say: names become places, and rules are read.
ghost use Rattle.std.specs.Prelude.{◌≡◌, ◌+◌, ◌<◌, ◌≤◌, ◌^◌, [], ◌∷◌, ◌++◌, Result, Ok, IfOk, OnOk, length};
ghost use Rattle.pb_base.specs.Answers.{Answers, Gives, Leaves};
ghost use Rattle.pb_base.specs.Results.{and_then};
ghost use Rattle.book_model.specs.Groups.{AreGroups};
ghost use Rattle.book_text.specs.PartialBook.{records_of, IsGrouped};
ghost use Rattle.pb_base.specs.declared.limits.TheConstants.{MOST_TEXT_BYTES};
ghost use Rattle.book_text.specs.SecondPass.{place_of, places_of, place_if_named, rule_in, supplement_of, construct_of, demand_of, group_of, position_of, variant_of, with_variant, resolved};
ghost use Rattle.book_text.specs.Group.{names_in};
ghost use Rattle.book_text.specs.Said.{said_pass};
ghost use Rattle.book_text.specs.Records.{no_records};
ghost use Rattle.book_text.specs.Rows.{IsShort};
ghost use Rattle.book_text.specs.declared.fault.BookKind.{BookKind};

use crate::entry::Entry;
use crate::fault::{BookFault, BookKind, Which};
use crate::fields::{Days, GroupKind};
use crate::names::Names;
use crate::partial_book::PartialBook;
use crate::survey::Survey;
use crate::texts::Texts;
use book_model::{Construct, Demand, Module, Places, Position, Supplement, Variant, VariantGroups};
use pb_base::limits::MOST_CHOICES;
use pb_base::{CodeName, CodeTable, Fail, Formula, Id, Part, Table};
use rule_text::read_rule;
use std::alloc::Global;

/// The records that the rows behind the heading say.
pub fn second_pass(alloc: Global, survey: &Survey<'_>) -> Result<PartialBook, Fail<BookFault>>
    requires count { length survey.now.entries.items ≡ length survey.now.texts }
    requires few { length survey.now.entries.items ≤ MOST_TEXT_BYTES }
    requires short { IsShort survey.now.texts }
    ensures value { Gives result records_of
        (said_pass survey.now.names 2 no_records survey.now.entries.items survey.now.texts) }
    ensures grouped { IfOk result (IsGrouped (length survey.now.names.positions)) }
{
    let mut book = PartialBook::new(alloc, &survey.names)?;
    resolve_all(
        alloc,
        &mut book,
        &survey.names,
        &survey.entries,
        &survey.texts,
    )?;
    Ok(book)
}

// Adds the records that the rows behind the heading say, with the texts beside them.
fn resolve_all(
    alloc: Global,
    book: &mut PartialBook,
    names: &Names,
    entries: &[Entry],
    texts: &Texts<'_>,
) -> Result<(), Fail<BookFault>>
    requires count { length entries.now ≡ length texts.now }
    requires few { length entries.now + 2 < 2 ^ 32 }
    requires short { IsShort texts.now }
    requires none { book.old.variants.items ≡ [] }
    requires grouped { IsGrouped (length names.now.positions) book.old }
    ensures value { Leaves result (records_of book.new)
        (said_pass names.now 2 (records_of book.old) entries.now texts.now) }
    ensures grouped { OnOk result (IsGrouped (length names.now.positions) book.new) }
{
    for (k, entry) in entries.iter().enumerate() {
        match resolve(alloc, book, names, entry, texts.get(k)) {
            Ok(()) => {}
            Err(Fail::Refused(kind)) => {
                let row = k as u32 + 2;
                return Err(Fail::Refused(BookFault { row, kind }));
            }
            Err(Fail::Memory) => return Err(Fail::Memory),
        }
    }
    Ok(())
}

// Adds the record that a row says, with this text beside it.
fn resolve(
    alloc: Global,
    book: &mut PartialBook,
    names: &Names,
    entry: &Entry,
    text: &[u8],
) -> Result<(), Fail<BookKind>>
    requires short { length text.now < 2 ^ 32 }
    requires few { length book.old.variants.items < 2 ^ 32 }
    requires grouped { IsGrouped (length names.now.positions) book.old }
    ensures value { Leaves result (records_of book.new)
        (resolved names.now (records_of book.old) entry.now text.now) }
    ensures grouped { OnOk result (IsGrouped (length names.now.positions) book.new) }
    ensures more { OnOk result (length book.new.variants.items ≤ length book.old.variants.items + 1) }
{
    match entry {
        Entry::Code { .. } => Ok(()),
        Entry::Supplement {
            id,
            rank,
            code,
            days,
        } => {
            let made = supplement_of(alloc, &names.codes, *id, *rank, code, *days, text);
            add(&mut book.supplements, made)
        }
        Entry::Construct { id, on, days } => {
            let made = construct_of(alloc, &names.codes, *id, on, *days, text);
            add(&mut book.constructs, made)
        }
        Entry::Group { id, kind, days } => {
            let made = group_of(alloc, &names.codes, *id, *kind, *days, text);
            add(&mut book.constructs, made)
        }
        Entry::Module { id } => {
            book.modules.push(Module { id: *id })?;
            Ok(())
        }
        Entry::Position {
            id,
            group,
            mandatory,
            days,
        } => {
            let made = position_of(&names.modules, *id, group, *mandatory, *days);
            add(&mut book.positions, made)
        }
        Entry::Variant {
            id,
            position,
            part,
            quantity,
            days,
        } => {
            let record = variant_of(alloc, names, *id, position, *part, *quantity, *days, text)?;
            add_variant(&mut book.variants, &mut book.groups, record)
        }
    }
}

// Adds a record, where it was made.
fn add<T: Drop>(records: &mut Vec<T>, made: Result<T, Fail<BookKind>>) -> Result<(), Fail<BookKind>>
    ensures { (answer : Result T BookKind) → Answers made answer
        → Leaves result records.new.items (and_then answer (λ added. Ok (records.old.items ++ added ∷ []))) }
{
    let record = made?;
    records.push(record)?;
    Ok(())
}

fn place_if_coded(codes: &CodeTable, name: &Option<CodeName>) -> Result<Option<u32>, Fail<BookKind>>
    ensures { Answers result (place_if_named codes.now name.now) }
{
    let Some(name) = name else {
        return Ok(None);
    };
    match codes.place_of(name) {
        Some(place) => Ok(Some(place)),
        None => Err(Fail::Refused(BookKind::UnknownName)),
    }
}

fn place_if_named(ids: &Table<Id>, id: &Option<Id>) -> Result<Option<u32>, Fail<BookKind>>
    ensures { Answers result (place_if_named ids.now id.now) }
{
    let Some(id) = id else {
        return Ok(None);
    };
    match ids.place_of(id) {
        Some(place) => Ok(Some(place)),
        None => Err(Fail::Refused(BookKind::UnknownName)),
    }
}

fn rule_in(alloc: Global, codes: &CodeTable, text: &[u8]) -> Result<Formula, Fail<BookKind>>
    requires { length text.now < 2 ^ 32 }
    ensures { Answers result (rule_in codes.now text.now) }
{
    match read_rule(alloc, text, codes) {
        Ok(rule) => Ok(rule),
        Err(fault) => Err(fault.map(|fault| BookKind::BadRule(fault))),
    }
}

fn supplement_of(
    alloc: Global,
    codes: &CodeTable,
    id: Id,
    rank: u32,
    code: &CodeName,
    days: Days,
    text: &[u8],
) -> Result<Supplement, Fail<BookKind>>
    requires { length text.now < 2 ^ 32 }
    ensures { Answers result (supplement_of codes.now id rank code.now days text.now) }
{
    let Some(code) = codes.place_of(code) else {
        return Err(Fail::Refused(BookKind::UnknownName));
    };
    let rule = rule_in(alloc, codes, text)?;
    Ok(Supplement {
        id,
        rank,
        code,
        rule,
        from: days.from,
        until: days.until,
    })
}

fn construct_of(
    alloc: Global,
    codes: &CodeTable,
    id: Id,
    on: &Option<CodeName>,
    days: Days,
    text: &[u8],
) -> Result<Construct, Fail<BookKind>>
    requires { length text.now < 2 ^ 32 }
    ensures { Answers result (construct_of codes.now id on.now days text.now) }
{
    let on = place_if_coded(codes, on)?;
    let rule = rule_in(alloc, codes, text)?;
    Ok(Construct {
        id,
        demand: Demand::Rule { on, rule },
        from: days.from,
        until: days.until,
    })
}

fn group_of(
    alloc: Global,
    codes: &CodeTable,
    id: Id,
    kind: GroupKind,
    days: Days,
    text: &[u8],
) -> Result<Construct, Fail<BookKind>>
    ensures { Answers result (group_of codes.now id kind days text.now) }
{
    let places = places_in(alloc, codes, text)?;
    Ok(Construct {
        id,
        demand: demand_of(kind, places),
        from: days.from,
        until: days.until,
    })
}

fn demand_of(kind: GroupKind, places: Places) -> Demand
    ensures { result ≡ demand_of kind places }
{
    match kind {
        GroupKind::One => Demand::One(places),
        GroupKind::Most => Demand::Most(places),
    }
}

// The places of the codes that a group's text names.
fn places_in(alloc: Global, codes: &CodeTable, text: &[u8]) -> Result<Places, Fail<BookKind>>
    ensures { Answers result (places_of codes.now (names_in text.now)) }
{
    let mut places = Vec::new(alloc);
    for name in text.split(|b| *b == b'/') {
        places.push(place_of(codes, name)?)?;
    }
    Ok(Places::of(places))
}

fn place_of(codes: &CodeTable, name: &[u8]) -> Result<u32, Fail<BookKind>>
    ensures { Answers result (place_of codes.now name.now) }
{
    // No code has a name that is none of a code's.
    let _form = codes.len();
    let Some(name) = CodeName::of(name) else {
        return Err(Fail::Refused(BookKind::UnknownName));
    };
    match codes.place_of(&name) {
        Some(place) => Ok(place),
        None => Err(Fail::Refused(BookKind::UnknownName)),
    }
}

fn position_of(
    modules: &Table<Id>,
    id: Id,
    group: &Option<Id>,
    mandatory: bool,
    days: Days,
) -> Result<Position, Fail<BookKind>>
    ensures { Answers result (position_of modules.now id group.now mandatory days) }
{
    let module = place_if_named(modules, group)?;
    Ok(Position {
        id,
        module,
        mandatory,
        from: days.from,
        until: days.until,
    })
}

fn variant_of(
    alloc: Global,
    names: &Names,
    id: Id,
    position: &Id,
    part: Part,
    quantity: u32,
    days: Days,
    text: &[u8],
) -> Result<Variant, Fail<BookKind>>
    requires { length text.now < 2 ^ 32 }
    ensures { Answers result (variant_of names.now id position.now part quantity days text.now) }
{
    let Some(position) = names.positions.place_of(position) else {
        return Err(Fail::Refused(BookKind::UnknownName));
    };
    let rule = rule_in(alloc, &names.codes, text)?;
    Ok(Variant {
        id,
        position,
        part,
        quantity,
        rule,
        from: days.from,
        until: days.until,
    })
}

// Adds a variant, and its place to those of its position.
fn add_variant(
    variants: &mut Vec<Variant>,
    groups: &mut VariantGroups,
    variant: Variant,
) -> Result<(), Fail<BookKind>>
    requires within { variant.position < length groups.old }
    requires few { length variants.old.items < 2 ^ 32 }
    requires grouped { AreGroups (length groups.old) variants.old.items groups.old }
    ensures value { Leaves result variants.new.items (with_variant variants.old.items variant) }
    ensures grouped { OnOk result (AreGroups (length groups.old) variants.new.items groups.new) }
{
    if groups.of_position(variant.position).len() >= MOST_CHOICES {
        return Err(Fail::Refused(BookKind::Limit(Which::Choices)));
    }
    groups.add(variant.position, variants.len() as u32)?;
    variants.push(variant)?;
    Ok(())
}
