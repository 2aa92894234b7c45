//! The lines of an accepted order.
ghost use Rattle.std.specs.Prelude.{◌≡◌, ◌++◌, OnOk, length};
ghost use Rattle.std.specs.List.{flat_map};
ghost use Rattle.std.specs.Option.{option_map, option_to_list};
ghost use Rattle.chosen_parts.specs.Chosen.{use_of, AreFew};
ghost use Rattle.order_days.specs.DaysText.{Built, use_text, uses_text, now_between, now_line, codes_line, changed_codes};

use crate::same::{same_choice, same_set};
use book_model::{Book, Variant};
use chosen_parts::chosen_variant;
use pb_base::{CodeSet, Day, Id, Memory, Text, put_names};

/// Puts the line of the codes in a set.
pub(crate) fn put_codes(text: &mut Text, book: &Book, set: &CodeSet) -> Result<(), Memory>
    ensures { OnOk result (text.new ≡ text.old ++ codes_line book.now set.now) }
{
    text.put(b"codes")?;
    put_names(text, book.codes(), set)?;
    text.put(b"\n")
}

/// The same if they are others than those before.
pub(crate) fn put_changed_codes(
    text: &mut Text,
    book: &Book,
    before: &CodeSet,
    set: &CodeSet,
) -> Result<(), Memory>
    requires { length before.now ≡ length set.now }
    ensures { OnOk result (text.new ≡ text.old ++ changed_codes book.now before.now set.now) }
{
    if same_set(before, set) {
        Ok(())
    } else {
        put_codes(text, book, set)
    }
}

/// Puts a line for each position at which other parts stand on the day with the set than before.
pub(crate) fn put_now(
    text: &mut Text,
    book: &Book,
    day_before: Day,
    set_before: &CodeSet,
    day: Day,
    set: &CodeSet,
) -> Result<(), Memory>
    requires codes_before { length set_before.now ≡ length book.now.codes }
    requires few_before { AreFew book.now day_before set_before.now }
    requires codes { length set.now ≡ length book.now.codes }
    requires few { AreFew book.now day set.now }
    ensures { let before : Built = record { day = day_before; set = set_before.now } in
        let after : Built = record { day = day; set = set.now } in
        OnOk result (text.new ≡ text.old ++ flat_map (now_line book.now before after) book.now.positions) }
{
    for (place, position) in book.positions().iter().enumerate() {
        let before = chosen_variant(book, day_before, set_before, &position.id, place);
        let after = chosen_variant(book, day, set, &position.id, place);
        put_between(text, &position.id, before, after)?;
    }
    Ok(())
}

// The line of a position, if other parts stand there than before.
fn put_between(
    text: &mut Text,
    id: &Id,
    before: Option<&Variant>,
    after: Option<&Variant>,
) -> Result<(), Memory>
    ensures { let old = option_to_list (option_map (λ v. use_of v.now) before.entry) in
        let uses = option_to_list (option_map (λ v. use_of v.now) after.entry) in
        OnOk result (text.new ≡ text.old ++ now_between id.now old uses) }
{
    if same_choice(before, after) {
        return Ok(());
    }
    text.put(b"now ")?;
    text.put(id.bytes())?;
    put_choice(text, after)?;
    text.put(b"\n")
}

fn put_choice(text: &mut Text, choice: Option<&Variant>) -> Result<(), Memory>
    ensures { let uses = option_to_list (option_map (λ v. use_of v.now) choice.entry) in
        OnOk result (text.new ≡ text.old ++ uses_text uses) }
{
    match choice {
        Some(variant) => put_use(text, variant),
        None => text.put(b" -"),
    }
}

fn put_use(text: &mut Text, variant: &Variant) -> Result<(), Memory>
    ensures { OnOk result (text.new ≡ text.old ++ use_text (use_of variant.now)) }
{
    text.put(b" ")?;
    text.put(variant.part.bytes())?;
    text.put(b" x")?;
    text.put_number(u64::from(variant.quantity))
}
