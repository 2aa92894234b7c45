//! The answers to questions.
ghost use Rattle.std.specs.Prelude.{◌≡◌, ◌^◌, ◌+◌, ◌++◌, ◌<◌, ◌≤◌, Some, None, All, IfOk, IfSome, OnOk, length, slice_get, slice_index_or};
ghost use Rattle.std.specs.List.{sum_by};
ghost use Rattle.std.specs.Option.{option_to_list};
ghost use Rattle.pb_base.specs.InParts.{InParts};
ghost use Rattle.pb_base.specs.declared.limits.TheConstants.{MOST_BUDGET};
ghost use Rattle.inquiry.specs.Asking.{IsAsking, IsTried, MayFind, left_of};
ghost use Rattle.inquiry.specs.Told.{IsKept, IsTold};

use crate::asking::{Outcome, Searching, ask_alone};
use crate::kept::KeptSets;
use crate::source::Inquiry;
use crate::told::Told;
use crate::tried::{Tried, try_sets};
use pb_base::Memory;
use std::alloc::Global;

/// What is to be told of questions, in order. Kept sets are tried first, the newest first; what they don't answer is asked of
/// solvers that several questions share, and what is left there again alone. The sets that are found are kept.
pub fn answer_all<S: Inquiry>(
    alloc: Global,
    source: &S,
    questions: &[S::Question],
    budget: u32,
    sets: &mut KeptSets,
) -> Result<Vec<Told<S::Question>>, Memory>
    requires ready { S.IsReady source.now }
    requires posed { All (S.IsPosed source.now) questions.now }
    requires some { 0 < budget }
    requires most { budget ≤ MOST_BUDGET }
    requires kept { All (IsKept (S.form source.now) (S.MayShow source.now)) sets.old }
    ensures kept { All (IsKept (S.form source.now) (S.MayShow source.now)) sets.new }
    ensures told { IfOk result (λ told. InParts (IsTold (S.form source.now) budget) questions.now told.items) }
{
    let mut told = Vec::new(alloc);
    let mut at = 0;
    while at < questions.len() {
        let tried = try_sets(alloc, source, &questions[at..], sets)?;
        let end = at + tried.found.len();
        let mut own = answer_tried(alloc, source, &questions[at..end], &tried, budget, sets)?;
        told.append(&mut own)?;
        at = end;
    }
    Ok(told)
}

// The same of questions on which the sets were tried.
fn answer_tried<S: Inquiry>(
    alloc: Global,
    source: &S,
    questions: &[S::Question],
    tried: &Tried<S::Question>,
    budget: u32,
    sets: &mut KeptSets,
) -> Result<Vec<Told<S::Question>>, Memory>
    requires ready { S.IsReady source.now }
    requires posed { All (S.IsPosed source.now) questions.now }
    requires some { 0 < budget }
    requires most { budget ≤ MOST_BUDGET }
    requires kept { All (IsKept (S.form source.now) (S.MayShow source.now)) sets.old }
    requires tried { IsTried (S.form source.now) questions.now tried.now }
    ensures kept { All (IsKept (S.form source.now) (S.MayShow source.now)) sets.new }
    ensures told { IfOk result (λ told. InParts (IsTold (S.form source.now) budget) questions.now told.items) }
{
    let mut told = Vec::new(alloc);
    let mut searching = Searching::new();
    for (place, question) in questions.iter().enumerate() {
        let own = answer_at(
            alloc,
            source,
            place,
            *question,
            tried,
            &mut searching,
            budget,
            sets,
        )?;
        put(&mut told, own)?;
    }
    Ok(told)
}

// Puts what is told of a question behind the rest, if there is anything to tell.
fn put<Q: Copy>(told: &mut Vec<Told<Q>>, own: Option<Told<Q>>) -> Result<(), Memory>
    ensures { OnOk result (told.new.items ≡ told.old.items ++ option_to_list own) }
{
    match own {
        Some(own) => told.push(own)?,
        None => {}
    }
    Ok(())
}

// What is to be told of the question at a place, if anything is.
fn answer_at<S: Inquiry>(
    alloc: Global,
    source: &S,
    place: usize,
    question: S::Question,
    tried: &Tried<S::Question>,
    searching: &mut Searching,
    budget: u32,
    sets: &mut KeptSets,
) -> Result<Option<Told<S::Question>>, Memory>
    requires ready { S.IsReady source.now }
    requires posed { S.IsPosed source.now question }
    requires rest_posed { All (S.IsPosed source.now) tried.now.rest.items }
    requires some { 0 < budget }
    requires most { budget ≤ MOST_BUDGET }
    requires kept { All (IsKept (S.form source.now) (S.MayShow source.now)) sets.old }
    requires there { place < length tried.now.found.items }
    requires found { MayFind (S.form source.now) question (slice_index_or tried.now.found.items place None) }
    requires left { slice_index_or tried.now.found.items place None ≡ None
        → slice_get tried.now.rest.items searching.old.asked ≡ Some question }
    requires few { sum_by (S.form source.now).size tried.now.rest.items ≤ 2 ^ 30 }
    requires asking { IfSome searching.old.asking (IsAsking (S.form source.now) tried.now.rest.items) }
    ensures kept { All (IsKept (S.form source.now) (S.MayShow source.now)) sets.new }
    ensures asking { IfSome searching.new.asking (IsAsking (S.form source.now) tried.now.rest.items) }
    ensures asked { OnOk result (searching.new.asked
        ≡ searching.old.asked + left_of (slice_index_or tried.now.found.items place None)) }
    ensures told { IfOk result (λ own. IsTold (S.form source.now) budget question (option_to_list own)) }
{
    match &tried.found[place] {
        Some(set) => {
            let set = set.copy(alloc)?;
            Ok(Some(Told::Finding { question, set }))
        }
        None => {
            let at = searching.asked;
            searching.asked = at + 1;
            answer(
                alloc,
                source,
                &tried.rest,
                at,
                question,
                searching,
                budget,
                sets,
            )
        }
    }
}

// The same of one of the questions that the sets tried before don't answer. It stands at this place among them.
fn answer<S: Inquiry>(
    alloc: Global,
    source: &S,
    rest: &[S::Question],
    at: usize,
    question: S::Question,
    searching: &mut Searching,
    budget: u32,
    sets: &mut KeptSets,
) -> Result<Option<Told<S::Question>>, Memory>
    requires ready { S.IsReady source.now }
    requires posed { S.IsPosed source.now question }
    requires rest_posed { All (S.IsPosed source.now) rest.now }
    requires some { 0 < budget }
    requires most { budget ≤ MOST_BUDGET }
    requires kept { All (IsKept (S.form source.now) (S.MayShow source.now)) sets.old }
    requires there { slice_get rest.now at ≡ Some question }
    requires few { sum_by (S.form source.now).size rest.now ≤ 2 ^ 30 }
    requires asking { IfSome searching.old.asking (IsAsking (S.form source.now) rest.now) }
    ensures kept { All (IsKept (S.form source.now) (S.MayShow source.now)) sets.new }
    ensures asking { IfSome searching.new.asking (IsAsking (S.form source.now) rest.now) }
    ensures asked { searching.new.asked ≡ searching.old.asked }
    ensures told { IfOk result (λ own. IsTold (S.form source.now) budget question (option_to_list own)) }
{
    source.lawful();
    let found = sets.set_for(alloc, source, question, searching.found)?;
    match found {
        Some(set) => return Ok(Some(Told::Finding { question, set })),
        None => {}
    }
    let outcome = searching.ask(alloc, source, rest, at, question, budget)?;
    match outcome {
        Outcome::Shown(set) => {
            sets.keep(alloc, source, &set)?;
            searching.found = searching.found.saturating_add(1);
            Ok(Some(Told::Finding { question, set }))
        }
        Outcome::NotShown => Ok(None),
        Outcome::Left(_) => answer_alone(alloc, source, question, budget),
    }
}

// The same by a search over the question's own clauses.
fn answer_alone<S: Inquiry>(
    alloc: Global,
    source: &S,
    question: S::Question,
    budget: u32,
) -> Result<Option<Told<S::Question>>, Memory>
    requires ready { S.IsReady source.now }
    requires posed { S.IsPosed source.now question }
    requires some { 0 < budget }
    requires most { budget ≤ MOST_BUDGET }
    ensures { IfOk result (λ own. IsTold (S.form source.now) budget question (option_to_list own)) }
{
    let outcome = ask_alone(alloc, source, question, budget)?;
    match outcome {
        Outcome::Shown(set) => Ok(Some(Told::Finding { question, set })),
        Outcome::NotShown => Ok(None),
        Outcome::Left(learnt) => Ok(Some(Told::Undecided { question, learnt })),
    }
}
