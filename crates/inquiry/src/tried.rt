//! Questions that kept sets answer, and those that are left to a solver.
ghost use Rattle.std.specs.Prelude.{◌≡◌, ◌^◌, ◌+◌, ◌<◌, ◌≤◌, Some, All, IfOk, true, false, length, take, slice_get};
ghost use Rattle.inquiry.specs.Asking.{IsTried};
ghost use Rattle.inquiry.specs.Told.{IsKept};

use crate::kept::{KeptSets, MOST_KEPT};
use crate::source::Inquiry;
use pb_base::{CodeSet, Memory};
use std::alloc::Global;

/// Questions on which sets were tried: for each of them a set that shows what it asks for, if one was found, those that have none,
/// and how many variables these add.
#[derive(Drop)]
pub(crate) struct Tried<Q> {
    pub(crate) found: Vec<Option<CodeSet>>,
    pub(crate) rest: Vec<Q>,
    pub(crate) taken: u32,
}

/// Tries the kept sets on questions from the first on, until those that are left fill a solver.
pub(crate) fn try_sets<S: Inquiry>(
    alloc: Global,
    source: &S,
    questions: &[S::Question],
    sets: &KeptSets,
) -> Result<Tried<S::Question>, Memory>
    requires ready { S.IsReady source.now }
    requires posed { All (S.IsPosed source.now) questions.now }
    requires some { 0 < length questions.now }
    requires kept { All (IsKept (S.form source.now) (S.MayShow source.now)) sets.now }
    ensures some { IfOk result (λ tried. 0 < length tried.found.items) }
    ensures within { IfOk result (λ tried. length tried.found.items ≤ length questions.now) }
    ensures tried { IfOk result (λ tried.
        IsTried (S.form source.now) (take (length tried.found.items) questions.now) tried) }
{
    let mut tried = Tried {
        found: Vec::new(alloc),
        rest: Vec::new(alloc),
        taken: 0,
    };
    for place in 0..questions.len() {
        if !try_at(alloc, source, questions, place, &mut tried, sets)? {
            return Ok(tried);
        }
    }
    Ok(tried)
}

// Tries the sets on the question at a place. False where it has to be left to a solver, and there is no room.
fn try_at<S: Inquiry>(
    alloc: Global,
    source: &S,
    questions: &[S::Question],
    place: usize,
    tried: &mut Tried<S::Question>,
    sets: &KeptSets,
) -> Result<bool, Memory>
    requires ready { S.IsReady source.now }
    requires posed { All (S.IsPosed source.now) questions.now }
    requires there { place < length questions.now }
    requires kept { All (IsKept (S.form source.now) (S.MayShow source.now)) sets.now }
    requires tried { IsTried (S.form source.now) (take place questions.now) tried.old }
    ensures further { IfOk result (λ took. took ≡ true
        → IsTried (S.form source.now) (take (place + 1) questions.now) tried.new) }
    ensures full { IfOk result (λ took. took ≡ false
        → (tried.new ≡ tried.old) × (0 < length tried.old.found.items)) }
{
    let question = questions[place];
    let found = sets.set_for(alloc, source, question, MOST_KEPT)?;
    match found {
        Some(set) => {
            tried.found.push(Some(set))?;
            Ok(true)
        }
        None => leave(source, questions, place, question, tried),
    }
}

// Leaves the question at a place to a solver. False where there is no room.
fn leave<S: Inquiry>(
    source: &S,
    questions: &[S::Question],
    place: usize,
    question: S::Question,
    tried: &mut Tried<S::Question>,
) -> Result<bool, Memory>
    requires ready { S.IsReady source.now }
    requires posed { S.IsPosed source.now question }
    requires there { slice_get questions.now place ≡ Some question }
    requires tried { IsTried (S.form source.now) (take place questions.now) tried.old }
    ensures further { IfOk result (λ took. took ≡ true
        → IsTried (S.form source.now) (take (place + 1) questions.now) tried.new) }
    ensures full { IfOk result (λ took. took ≡ false
        → (tried.new ≡ tried.old) × (0 < length tried.old.found.items)) }
{
    source.lawful();
    let own = source.size(question);
    if !has_room(source.most_together(), tried.taken, own) {
        return Ok(false);
    }
    tried.rest.push(question)?;
    tried.found.push(None)?;
    tried.taken += own;
    Ok(true)
}

// The most variables that questions of one solver add together, whatever a source wants.
const MOST_TOGETHER: u32 = 1_073_741_824;

// Whether a solver whose questions add so many variables takes one that adds its own. It takes any where it has none.
fn has_room(most: u32, taken: u32, own: u32) -> bool
    requires taken { taken ≤ 2 ^ 30 }
    requires own { own ≤ 2 ^ 30 }
    ensures none { taken ≡ 0 → result ≡ true }
    ensures few { result ≡ true → taken + own ≤ 2 ^ 30 }
{
    taken == 0 || own <= most.min(MOST_TOGETHER).saturating_sub(taken)
}
