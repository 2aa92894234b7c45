//! The choices of a day: the active positions, each with its active variants.
ghost use Rattle.std.specs.Prelude.{◌≡◌, ◌+◌, ◌^◌, ◌<◌, ◌≤◌, ◌++◌, IfOk, OnOk, map, length};
ghost use Rattle.pb_base.specs.declared.limits.TheConstants.{MOST_CHOICES};
ghost use Rattle.clausify.specs.Items.{variables_of, usage_item, usage_items};
ghost use Rattle.clausify.specs.Choices.{active_variants, is_active_variant, choices, usage};
ghost use Rattle.clausify.specs.Goals.{usages_from, all_usages};
ghost use Rattle.clausify.specs.Encoding.{EncodesItems, AddsStarts};

use crate::encoder::Encoder;
use crate::layout::Start;
use crate::usage::Usage;
use book_model::{Book, active};
use pb_base::{Day, Formula, Memory};
use std::alloc::Global;

/// Whether the variant at this place is active.
pub fn is_active(book: &Book, day: Day, variant: u32) -> bool
    requires { variant < length book.now.variants }
    ensures { result ≡ is_active_variant book.now day variant }
{
    let variant = &book.variants()[variant as usize];
    active(variant.from, variant.until, day)
}

/// The formula of the variant at this place.
pub fn usage_of(book: &Book, variant: u32) -> &Formula
    requires { variant < length book.now.variants }
    ensures { result.now ≡ usage book.now variant }
{
    &book.variants()[variant as usize].rule
}

/// How many variants of the position are active.
pub(crate) fn active_count(book: &Book, day: Day, position: u32) -> usize
    requires { position < length book.now.positions }
    ensures count { result ≡ length (active_variants book.now day position) }
    ensures limit { result ≤ MOST_CHOICES }
{
    let mut count = 0;
    for variant in book.variants_of(position) {
        if is_active(book, day, *variant) {
            count += 1;
        }
    }
    count
}

/// The usages of the position's active variants, added at the end.
pub(crate) fn add_usages(
    encoder: &mut Encoder,
    starts: &mut Vec<Start>,
    usages: &mut Vec<Usage>,
    book: &Book,
    day: Day,
    position: u32,
) -> Result<(), Memory>
    requires within { position < length book.now.positions }
    requires room { let items = map (usage_item book.now) (active_variants book.now day position) in
        encoder.old.next + variables_of items < 2 ^ 32 }
    ensures made { let items = map (usage_item book.now) (active_variants book.now day position) in
        OnOk result (EncodesItems encoder.old encoder.new items) }
    ensures starts { let items = map (usage_item book.now) (active_variants book.now day position) in
        OnOk result (AddsStarts encoder.old starts.old.items starts.new.items items) }
    ensures usages { OnOk result (usages.new.items ≡ usages.old.items
        ++ usages_from book.now encoder.old.truth encoder.old.next (active_variants book.now day position)) }
{
    for variant in book.variants_of(position) {
        if is_active(book, day, *variant) {
            starts.push(encoder.start())?;
            let literal = encoder.literal(usage_of(book, *variant))?;
            usages.push(Usage {
                variant: *variant,
                literal,
            })?;
        }
    }
    Ok(())
}

/// The usages of the active variants of the positions that are active on a day, in order. Where the clauses of each begin
/// comes behind the other starts.
pub fn usages_of(
    alloc: Global,
    encoder: &mut Encoder,
    starts: &mut Vec<Start>,
    book: &Book,
    day: Day,
) -> Result<Vec<Usage>, Memory>
    requires { encoder.old.next + variables_of (usage_items book.now (choices book.now day)) < 2 ^ 32 }
    ensures made { let items = usage_items book.now (choices book.now day) in
        OnOk result (EncodesItems encoder.old encoder.new items) }
    ensures starts { let items = usage_items book.now (choices book.now day) in
        OnOk result (AddsStarts encoder.old starts.old.items starts.new.items items) }
    ensures usages { IfOk result (λ us. us.items
        ≡ all_usages book.now encoder.old.truth encoder.old.next (choices book.now day)) }
{
    let mut usages = Vec::new(alloc);
    for (place, position) in book.positions().iter().enumerate() {
        if active(position.from, position.until, day) {
            add_usages(encoder, starts, &mut usages, book, day, place as u32)?;
        }
    }
    Ok(usages)
}
