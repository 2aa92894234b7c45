//! Questions that share what is asked of the sets with some codes.
ghost use Rattle.std.specs.Prelude.{◌≡◌, ◌+◌, ◌^◌, ◌<◌, ◌≤◌, Some, All, IfOk, false, length, slice_get, take, true};
ghost use Rattle.supplement_findings.specs.Answering.{AreTouched, IsGroup};
ghost use Rattle.supplement_findings.specs.Questions.{QuestionFits, rule_at};

use crate::occurs::is_among;
use crate::question::SupplementQuestion;
use crate::touched::touched_at;
use book_model::Book;
use pb_base::{Memory, Sequence};
use std::alloc::Global;

/// The codes that the rules of some questions add, each once, if they ask what a rule breaks.
#[derive(Drop)]
pub(crate) struct Group {
    pub(crate) codes: Vec<u32>,
    /// How many constructibility rules each of the codes touches, together.
    pub(crate) touched: usize,
    /// How many questions are of these codes.
    pub(crate) len: usize,
}

/// The first questions whose codes touch few enough rules together, or that are of no code. What is asked of the sets with the
/// codes is to take about as many variables as the constructibility rules themselves.
pub(crate) fn group_of(
    alloc: Global,
    book: &Book,
    questions: &[SupplementQuestion],
    touched: &[Sequence<u32>],
) -> Result<Group, Memory>
    requires fits { All (QuestionFits book.now) questions.now }
    requires touched { AreTouched (length book.now.codes) book.now.constructs touched.now }
    requires some { 0 < length questions.now }
    ensures some { IfOk result (λ group. 0 < group.len) }
    ensures within { IfOk result (λ group. group.len ≤ length questions.now) }
    ensures group { IfOk result (λ group. IsGroup book.now (take group.len questions.now) group) }
{
    let mut group = Group {
        codes: Vec::new(alloc),
        touched: 0,
        len: 0,
    };
    for place in 0..questions.len() {
        if !take_at(book, questions, place, touched, &mut group)? {
            return Ok(group);
        }
    }
    Ok(group)
}

// Takes the question at a place into the group. False where there is no room for its code.
fn take_at(
    book: &Book,
    questions: &[SupplementQuestion],
    place: usize,
    touched: &[Sequence<u32>],
    group: &mut Group,
) -> Result<bool, Memory>
    requires fits { All (QuestionFits book.now) questions.now }
    requires touched { AreTouched (length book.now.codes) book.now.constructs touched.now }
    requires there { place < length questions.now }
    requires len { group.old.len ≡ place }
    requires group { IsGroup book.now (take place questions.now) group.old }
    ensures len { IfOk result (λ took. took ≡ true → group.new.len ≡ place + 1) }
    ensures further { IfOk result (λ took. took ≡ true
        → IsGroup book.now (take (place + 1) questions.now) group.new) }
    ensures full { IfOk result (λ took. took ≡ false → (group.new ≡ group.old) × (0 < place)) }
{
    match questions[place] {
        SupplementQuestion::Breaks(rule) => take_rule(book, questions, place, rule, touched, group),
        SupplementQuestion::Swaps { .. } => {
            if place > 0 && !group.codes.is_empty() {
                return Ok(false);
            }
            group.len += 1;
            Ok(true)
        }
    }
}

// The same of a question of what a rule breaks.
fn take_rule(
    book: &Book,
    questions: &[SupplementQuestion],
    place: usize,
    rule: u32,
    touched: &[Sequence<u32>],
    group: &mut Group,
) -> Result<bool, Memory>
    requires fits { rule < length book.now.supplements }
    requires within { place < length questions.now }
    requires touched { AreTouched (length book.now.codes) book.now.constructs touched.now }
    requires there { slice_get questions.now place ≡ Some (SupplementQuestion.Breaks rule) }
    requires len { group.old.len ≡ place }
    requires group { IsGroup book.now (take place questions.now) group.old }
    ensures len { IfOk result (λ took. took ≡ true → group.new.len ≡ place + 1) }
    ensures further { IfOk result (λ took. took ≡ true
        → IsGroup book.now (take (place + 1) questions.now) group.new) }
    ensures full { IfOk result (λ took. took ≡ false → (group.new ≡ group.old) × (0 < place)) }
{
    book.codes();
    let code = code_at(book, rule);
    if is_among(code, &group.codes) {
        group.len += 1;
        return Ok(true);
    }
    let own = touched_at(book, touched, code).len();
    if !has_room(book, place, group.touched, own) {
        return Ok(false);
    }
    group.codes.push(code)?;
    group.touched += own;
    group.len += 1;
    Ok(true)
}

// The code that a rule adds.
fn code_at(book: &Book, rule: u32) -> u32
    requires { rule < length book.now.supplements }
    ensures is { result ≡ (rule_at book.now rule).code }
    ensures within { result < length book.now.codes }
{
    book.supplements()[rule as usize].code
}

// Whether codes that touch so many rules take one that touches its own. The first is taken whatever it touches.
fn has_room(book: &Book, place: usize, touched: usize, own: usize) -> bool
    requires none { place ≡ 0 → touched ≡ 0 }
    requires touched { touched ≤ 2 ^ 20 }
    requires own { own ≤ 11000 }
    ensures few { result ≡ true → touched + own ≤ 2 ^ 20 }
    ensures full { result ≡ false → 0 < place }
{
    let most = book.constructs().len().max(1_024) * 4;
    place == 0 || touched + own <= most
}
