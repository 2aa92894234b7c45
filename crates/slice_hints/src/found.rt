//! Sets that are good on every day of a slice, and the questions that they answer.
ghost use Rattle.std.specs.Prelude.{◌≡◌, ◌&&◌, ◌<◌, All, IfOk, IsTrue, length, map};
ghost use Rattle.std.specs.List.{list_any};
ghost use Rattle.pb_base.specs.Rule.{codes_below, holds};
ghost use Rattle.book_model.specs.Parts.{variants_of};
ghost use Rattle.clausify.specs.Choices.{usage, is_active_variant, active_variants};
ghost use Rattle.clausify.specs.Questions.{goal, QuestionFits};
ghost use Rattle.slice_hints.specs.Found.{KnowsUsages};

use book_model::{Book, Variant};
use clausify::{Question, is_active};
use pb_base::{CodeSet, Day, Memory};
use std::alloc::Global;

/// A set of codes, and for each variant of the book whether its formula is true over the set.
#[derive(Drop)]
pub struct Found {
    pub set: CodeSet,
    /// By the place of a variant in the book.
    pub usages: Vec<bool>,
}

/// A set, with the truth of each variant's formula over it.
pub fn found_with(alloc: Global, book: &Book, set: CodeSet) -> Result<Found, Memory>
    requires { length set ≡ length book.now.codes }
    ensures set { IfOk result (λ f. f.set ≡ set) }
    ensures usages { IfOk result (KnowsUsages book.now) }
{
    let usages = usages_over(alloc, book.variants(), &set)?;
    Ok(Found { set, usages })
}

// For each variant whether its formula is true over the set.
fn usages_over(alloc: Global, variants: &[Variant], set: &CodeSet) -> Result<Vec<bool>, Memory>
    requires { All (λ v. IsTrue (codes_below (length set.now) v.rule)) variants.now }
    ensures { IfOk result (λ us. us.items ≡ map (λ v. holds v.rule set.now) variants.now) }
{
    let mut usages = Vec::new(alloc);
    for variant in variants {
        usages.push(variant.rule.holds(set))?;
    }
    Ok(usages)
}

/// Whether a set meets the goal of a question on a day.
pub(crate) fn meets(book: &Book, day: Day, found: &Found, question: Question) -> bool
    requires counted { length found.now.set ≡ length book.now.codes }
    requires usages { KnowsUsages book.now found.now }
    requires fits { QuestionFits book.now question }
    ensures { result ≡ holds (goal book.now day question) found.now.set }
{
    match question {
        Question::Void => true,
        Question::Necessary(code) => !found.set.has(code),
        Question::Inadmissible(code) => found.set.has(code),
        Question::Superfluous(variant) => is_used(book, found, variant),
        Question::Ambiguous {
            position: _,
            first,
            second,
        } => is_used(book, found, first) && is_used(book, found, second),
        Question::Uncovered(position) => !any_used(book, day, found, position),
    }
}

// Whether the formula of the variant at this place is true over the set.
fn is_used(book: &Book, found: &Found, variant: u32) -> bool
    requires usages { KnowsUsages book.now found.now }
    requires place { variant < length book.now.variants }
    ensures { result ≡ holds (usage book.now variant) found.now.set }
{
    let _variants = book.variants();
    found.usages[variant as usize]
}

// Whether the variant at this place is active on the day, and its formula is true over the set.
fn is_used_on(book: &Book, day: Day, found: &Found, variant: u32) -> bool
    requires usages { KnowsUsages book.now found.now }
    requires place { variant < length book.now.variants }
    ensures { result
        ≡ (is_active_variant book.now day variant && holds (usage book.now variant) found.now.set) }
{
    is_active(book, day, variant) && is_used(book, found, variant)
}

// Whether the formula of any active variant of the position is true over the set.
fn any_used(book: &Book, day: Day, found: &Found, position: u32) -> bool
    requires usages { KnowsUsages book.now found.now }
    requires place { position < length book.now.positions }
    ensures { result
        ≡ list_any (λ v. holds (usage book.now v) found.now.set) (active_variants book.now day position) }
{
    any_used_on(book, day, found, book.variants_of(position))
}

// Whether any of the variants at these places is active on the day, and its formula is true over the set.
fn any_used_on(book: &Book, day: Day, found: &Found, variants: &[u32]) -> bool
    requires usages { KnowsUsages book.now found.now }
    requires places { All (λ v. v < length book.now.variants) variants.now }
    ensures { result ≡ list_any (λ v. is_active_variant book.now day v
        && holds (usage book.now v) found.now.set) variants.now }
{
    variants
        .iter()
        .any(|variant| is_used_on(book, day, found, *variant))
}
