//! What can't be told of questions.
ghost use Rattle.std.specs.Prelude.{◌≡◌, ◌<◌, ◌≤◌, All, IfOk, OnOk, length};
ghost use Rattle.pb_base.specs.declared.limits.TheConstants.{MOST_BUDGET};
ghost use Rattle.inquiry.specs.Told.{IsKept};
ghost use Rattle.logic_guards.specs.Inquiries.{AllShown, EachTold};

use inquiry::{Inquiry, KeptSets, Told, answer_all};
use pb_base::Memory;
use std::alloc::Global;

/// Each set that is told with a question shows what the question asks for. A run would tell a finding that isn't one.
#[tactic(auto, using(crate::proofs::InquiryLaws::all_shown))]
pub fn what_is_found_is_shown<S: Inquiry>(
    alloc: Global,
    source: &S,
    questions: &[S::Question],
    budget: u32,
    sets: &mut KeptSets,
) -> Result<Vec<Told<S::Question>>, Memory>
    requires ready { S.IsReady source.now }
    requires posed { All (S.IsPosed source.now) questions.now }
    requires some { 0 < budget }
    requires most { budget ≤ MOST_BUDGET }
    requires kept { All (IsKept (S.form source.now) (S.MayShow source.now)) sets.old }
    ensures { IfOk result (λ told. AllShown (S.form source.now) told.items) }
{
    answer_all(alloc, source, questions, budget, sets)
}

/// Of each question that some set shows something is told: it isn't answered by its neighbour's search, nor passed over where its own
/// was left. A run would call a book sound of which a question is open.
#[tactic(auto, using(crate::proofs::InquiryLaws::each_told))]
pub fn no_shown_question_is_passed_over<S: Inquiry>(
    alloc: Global,
    source: &S,
    questions: &[S::Question],
    budget: u32,
    sets: &mut KeptSets,
) -> Result<Vec<Told<S::Question>>, Memory>
    requires ready { S.IsReady source.now }
    requires posed { All (S.IsPosed source.now) questions.now }
    requires some { 0 < budget }
    requires most { budget ≤ MOST_BUDGET }
    requires kept { All (IsKept (S.form source.now) (S.MayShow source.now)) sets.old }
    ensures { IfOk result (λ told. EachTold (S.form source.now) questions.now told.items) }
{
    answer_all(alloc, source, questions, budget, sets)
}

/// Of the sets that were kept on another day none stays that may not be tried on this one. A run would tell a car of yesterday.
pub fn sets_of_another_day_are_let_go<S: Inquiry>(
    alloc: Global,
    source: &S,
    sets: &mut KeptSets,
) -> Result<(), Memory>
    requires ready { S.IsReady source.now }
    requires counted { All (λ x. length x ≡ (S.form source.now).codes) sets.old }
    ensures { OnOk result (All (S.MayShow source.now) sets.new) }
{
    sets.keep_for(alloc, source)
}
