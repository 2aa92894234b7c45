//! Completing by trying only the rules that may fire.
//!
//! A rule fires because its formula is true where there are no codes, or because one of its codes was ordered or added. So each
//! rule that fires is in the worklist, the first in it that fires is the rule that fires first of all, and no other needs to
//! be tried. A rule is marked once one of its codes was ordered or added: the formula of any other is as where there are no codes,
//! and isn't looked at.
ghost use Rattle.std.specs.Prelude.{◌≡◌, ◌≤◌, IfOk, IfSome, OnOk, length, All, true, false};
ghost use Rattle.pb_base.specs.declared.limits.TheConstants.{MOST_SUPPLEMENTS};
ghost use Rattle.pb_base.specs.Rule.{holds};
ghost use Rattle.book_model.specs.Book.{SupplementFits};
ghost use Rattle.book_model.specs.Good.{fires};
ghost use Rattle.supplement.specs.Completion.{completion_by, first_firing};
ghost use Rattle.supplement.specs.Occurrences.{AreOccurrences};
ghost use Rattle.supplement.specs.Worklist.{HoldsFiring, HoldsFiringBut, AreCandidates, AreMarked, AreStanding, AreTryable};

use crate::completed::{Added, AddedList, Completed};
use crate::firing::Firing;
use crate::occurrences::OccurrenceLists;
use crate::worklist::{Candidate, RuleSet, Worklist};
use book_model::{Supplement, active, fires};
use pb_base::{CodeSet, Day, Memory};
use std::alloc::Global;

/// Completes a set by these supplementing rules, with those that stand anyway, and the occurrences of codes in all.
pub fn complete_by_worklist(
    alloc: Global,
    supplements: &[Supplement],
    standing: &[Candidate],
    occurrences: &OccurrenceLists,
    day: Day,
    mut set: CodeSet,
) -> Result<Completed, Memory>
    requires fit { All (SupplementFits (length set)) supplements.now }
    requires places { length supplements.now ≤ MOST_SUPPLEMENTS }
    requires standing { AreStanding supplements.now standing.now }
    requires occurrences { AreOccurrences (length set) supplements.now occurrences.now }
    ensures { IfOk result (λ c. c ≡ completion_by supplements.now day set) }
{
    let mut added = AddedList::new(alloc);
    let mut marks = RuleSet::none(alloc, supplements.len() as u32)?;
    let mut worklist = rules_to_try(
        alloc,
        supplements,
        standing,
        occurrences,
        day,
        &set,
        &mut marks,
    )?;
    while let Some(firing) = next_firing(&mut worklist, &marks, supplements, day, &set) {
        added.push(Added {
            code: firing.code,
            rule: firing.rule,
        })?;
        set.with(firing.code);
        let code = firing.code;
        occurrences.add_rules_of(code, supplements, day, &set, &mut worklist, &mut marks)?;
    }
    Ok(Completed { set, added })
}

// The rules that may fire over a set: those that stand anyway, and those of its codes, which it marks.
fn rules_to_try<'a>(
    alloc: Global,
    supplements: &[Supplement],
    standing: &'a [Candidate],
    occurrences: &OccurrenceLists,
    day: Day,
    set: &CodeSet,
    marks: &mut RuleSet,
) -> Result<Worklist<'a>, Memory>
    requires fit { All (SupplementFits (length set.now)) supplements.now }
    requires standing { AreStanding supplements.now standing.now }
    requires occurrences { AreOccurrences (length set.now) supplements.now occurrences.now }
    requires marks { length marks.old ≡ length supplements.now }
    ensures candidates { IfOk result (AreCandidates supplements.now) }
    ensures firing { IfOk result (HoldsFiring supplements.now day set.now) }
    ensures marked { OnOk result (AreMarked supplements.now set.now marks.new) }
    ensures tryable { IfOk result (AreTryable supplements.now marks.new) }
{
    let mut worklist = Worklist::over(alloc, standing);
    for code in 0..set.len() {
        if set.has(code) {
            occurrences.add_rules_of(code, supplements, day, set, &mut worklist, marks)?;
        }
    }
    Ok(worklist)
}

// Takes rules out up to the first that fires.
fn next_firing(
    worklist: &mut Worklist<'_>,
    marks: &RuleSet,
    supplements: &[Supplement],
    day: Day,
    set: &CodeSet,
) -> Option<Firing>
    requires fit { All (SupplementFits (length set.now)) supplements.now }
    requires candidates { AreCandidates supplements.now worklist.old }
    requires firing { HoldsFiring supplements.now day set.now worklist.old }
    requires marked { AreMarked supplements.now set.now marks.now }
    requires tryable { AreTryable supplements.now marks.now worklist.old }
    ensures value { result ≡ first_firing supplements.now day set.now }
    ensures candidates { IfSome result (λ _. AreCandidates supplements.now worklist.new) }
    ensures tryable { IfSome result (λ _. AreTryable supplements.now marks.now worklist.new) }
    ensures others { IfSome result (λ f. HoldsFiringBut f.rule supplements.now day set.now worklist.new) }
{
    while let Some(candidate) = worklist.pop() {
        let tried = &supplements[candidate.rule as usize];
        if fires_marked(marks.has(candidate.rule), tried, day, set) {
            return Some(Firing {
                rank: tried.rank,
                rule: candidate.rule,
                code: tried.code,
            });
        }
    }
    None
}

// The same as `fires`. The formula of a rule that isn't marked is true.
#[inline(always)]
fn fires_marked(marked: bool, supplement: &Supplement, day: Day, set: &CodeSet) -> bool
    requires fits { SupplementFits (length set.now) supplement.now }
    requires holding { marked ≡ false → holds supplement.now.rule set.now ≡ true }
    ensures { result ≡ fires day set.now supplement.now }
{
    if marked {
        return fires(supplement, day, set);
    }
    if set.has(supplement.code) {
        return false;
    }
    active(supplement.from, supplement.until, day)
}
