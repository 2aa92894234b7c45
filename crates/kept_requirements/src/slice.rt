//! What the cars of a slice say of requirements.
ghost use Rattle.std.specs.Prelude.{◌≡◌, ◌<◌, ◌≤◌, ◌^◌, All, IfOk, length};
ghost use Rattle.std.specs.List.{AllZip};
ghost use Rattle.pb_base.specs.declared.limits.TheConstants.{MOST_BUDGET};
ghost use Rattle.requirements.specs.Requirements.{RequirementFits};
ghost use Rattle.rules_met.specs.Met.{IsCounted};
ghost use Rattle.kept_requirements.specs.Kept.{rules_on, first_on, last_on, is_asked};
ghost use Rattle.kept_requirements.specs.Notes.{IsCell};

use crate::broken::add_asked;
use crate::cells::{Row, cells_of};
use book_model::{Book, Slice};
use inquiry::KeptSets;
use pb_base::{Day, Formula, Memory};
use requirements::Requirement;
use rules_met::ask_rules;
use std::alloc::Global;

/// What is answered of each requirement on a slice: nothing of one that is asked on none of its days.
pub(crate) fn check_slice(
    alloc: Global,
    book: &Book,
    slice: Slice,
    requirements: &[Requirement],
    budget: u32,
    sets: &mut KeptSets,
) -> Result<Row, Memory>
    requires fit { All (RequirementFits (length book.now.codes)) requirements.now }
    requires few { length requirements.now < 2 ^ 31 }
    requires some { 0 < budget }
    requires most { budget ≤ MOST_BUDGET }
    requires counted { All (IsCounted book.now) sets.old }
    ensures counted { All (IsCounted book.now) sets.new }
    ensures cells { IfOk result (λ row. AllZip (IsCell book.now budget slice) requirements.now row) }
{
    book.codes();
    let rules = rules_on(alloc, book, slice, requirements)?;
    let answers = ask_rules(alloc, book, slice.first, &rules, budget, sets)?;
    cells_of(alloc, slice, requirements, &answers)
}

// The rules that are asked on a slice.
fn rules_on(
    alloc: Global,
    book: &Book,
    slice: Slice,
    requirements: &[Requirement],
) -> Result<Vec<Formula>, Memory>
    ensures { IfOk result (λ rules. rules.items ≡ rules_on book.now slice requirements.now) }
{
    let mut rules = Vec::new(alloc);
    for requirement in requirements {
        if is_asked(requirement, slice) {
            add_asked(alloc, &mut rules, book, slice.first, &requirement.claim)?;
        }
    }
    Ok(rules)
}

/// The first of a requirement's days on a slice. Where it is after the last, it has none.
pub(crate) fn first_on(requirement: &Requirement, slice: Slice) -> Day
    ensures { result ≡ first_on requirement.now slice }
{
    if requirement.from <= slice.first {
        slice.first
    } else {
        requirement.from
    }
}

/// The last of a requirement's days on a slice.
pub(crate) fn last_on(requirement: &Requirement, slice: Slice) -> Day
    ensures { result ≡ last_on requirement.now slice }
{
    if slice.last <= requirement.until {
        slice.last
    } else {
        requirement.until
    }
}

/// Whether a requirement has a day on a slice.
pub(crate) fn is_asked(requirement: &Requirement, slice: Slice) -> bool
    ensures { result ≡ is_asked requirement.now slice }
{
    first_on(requirement, slice) <= last_on(requirement, slice)
}
