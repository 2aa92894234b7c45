//! What is answered of each requirement on a slice.
ghost use Rattle.std.specs.Prelude.{◌≡◌, IfOk, drop, slice_index_or};
ghost use Rattle.kept_requirements.specs.Kept.{claim_count, count_on};
ghost use Rattle.kept_requirements.specs.Notes.{cell_of, cells_of, part_of, meant_of};
ghost use Rattle.rules_met.specs.declared.answer.RuleAnswer.TheVariants.{NotMet};

use crate::slice::{first_on, is_asked, last_on};
use book_model::Slice;
use pb_base::{Day, Memory, Sequence};
use requirements::{Claim, Requirement};
use rules_met::RuleAnswer;
use std::alloc::Global;

/// What is answered of a requirement on its days in a slice.
#[derive(Drop)]
pub struct Part {
    pub first: Day,
    pub last: Day,
    /// Whether some car doesn't keep it.
    pub broken: RuleAnswer,
    /// Whether some car meets the rule of a requirement that is about a part.
    pub meant: RuleAnswer,
}

impl Part {
    /// A further one that is equal to this one.
    pub fn copy(&self, alloc: Global) -> Result<Part, Memory>
        ensures { IfOk result (λ part. part ≡ self.now) }
    {
        let broken = self.broken.copy(alloc)?;
        let meant = self.meant.copy(alloc)?;
        Ok(Part {
            first: self.first,
            last: self.last,
            broken,
            meant,
        })
    }
}

/// A cell for each requirement. It is empty where the requirement is not asked.
pub(crate) type Row = Sequence<Option<Part>>;

/// The cells of a slice with these answers to the rules that are asked on it.
pub(crate) fn cells_of(
    alloc: Global,
    slice: Slice,
    requirements: &[Requirement],
    answers: &[RuleAnswer],
) -> Result<Row, Memory>
    ensures { IfOk result (λ row. row ≡ cells_of slice requirements.now answers.now) }
{
    let mut cells = Sequence::new(alloc);
    let mut rest = answers;
    for requirement in requirements {
        let cell = cell_of(alloc, slice, requirement, rest)?;
        cells.push(cell)?;
        rest = behind(rest, count_on(requirement, slice));
    }
    Ok(cells)
}

// What stands behind so many answers.
#[tactic(auto, using(crate::proofs::CellLaws::none_behind))]
fn behind(answers: &[RuleAnswer], count: usize) -> &[RuleAnswer]
    ensures { result.now ≡ drop count answers.now }
{
    if count < answers.len() {
        &answers[count..]
    } else {
        &[]
    }
}

// How many answers a requirement has on a slice.
fn count_on(requirement: &Requirement, slice: Slice) -> usize
    ensures { result ≡ count_on requirement.now slice }
{
    if is_asked(requirement, slice) {
        claim_count(&requirement.claim)
    } else {
        0
    }
}

fn claim_count(claim: &Claim) -> usize
    ensures { result ≡ claim_count claim.now }
{
    match claim {
        Claim::Meets(_) => 1,
        Claim::Uses { .. } => 2,
    }
}

// The cell of a requirement whose answers come first.
fn cell_of(
    alloc: Global,
    slice: Slice,
    requirement: &Requirement,
    answers: &[RuleAnswer],
) -> Result<Option<Part>, Memory>
    ensures { IfOk result (λ cell. cell ≡ cell_of slice requirement.now answers.now) }
{
    if !is_asked(requirement, slice) {
        return Ok(None);
    }
    let broken = answer_at(alloc, answers, 0)?;
    let meant = meant_of(alloc, &requirement.claim, answers)?;
    Ok(Some(Part {
        first: first_on(requirement, slice),
        last: last_on(requirement, slice),
        broken,
        meant,
    }))
}

// The answer at a place, and that no car meets the rule where there is none.
fn answer_at(alloc: Global, answers: &[RuleAnswer], place: usize) -> Result<RuleAnswer, Memory>
    ensures { IfOk result (λ answer. answer ≡ slice_index_or answers.now place NotMet) }
{
    match answers.get(place) {
        Some(answer) => answer.copy(alloc),
        None => Ok(RuleAnswer::NotMet),
    }
}

fn meant_of(alloc: Global, claim: &Claim, answers: &[RuleAnswer]) -> Result<RuleAnswer, Memory>
    ensures { IfOk result (λ answer. answer ≡ meant_of claim.now answers.now) }
{
    match claim {
        Claim::Meets(_) => Ok(RuleAnswer::NotMet),
        Claim::Uses { .. } => answer_at(alloc, answers, 1),
    }
}
