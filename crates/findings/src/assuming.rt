//! What a question assumes: literals that are true together just where a set meets its goal.
ghost use Rattle.std.specs.Prelude.{◌≡◌, ℕ, List, ◌<◌, [], ◌∷◌, ◌++◌, All, IfOk, IfSome, OnOk, length, not, true, false};
ghost use Rattle.book_model.specs.Contents.{Contents};
ghost use Rattle.std.specs.List.{list_any};
ghost use Rattle.clause_pool.specs.Literal.{complement};
ghost use Rattle.clause_pool.specs.Clause.{has};
ghost use Rattle.clause_pool.specs.Derivation.{AllFollow};
ghost use Rattle.clausify.specs.Questions.{QuestionFits};
ghost use Rattle.solver.specs.Answer.{IsCore};
ghost use Rattle.book_clauses.specs.BookClauses.{AreUsages, IsUsage};
ghost use Rattle.findings.specs.Core.{Assumes, AssumesNone};

use book_model::Book;
use clause_pool::{Kernel, Lit, Ref};
use clausify::{Question, is_active};
use pb_base::{Day, Memory};

/// Leaves the literals that a question assumes. False where one isn't known.
pub(crate) fn assume(
    assumed: &mut Vec<Lit>,
    book: &Book,
    day: Day,
    lits: &[Lit],
    question: Question,
) -> Result<bool, Memory>
    requires fits { QuestionFits book.now question }
    ensures { (cs : List (List ℕ)) (vars : ℕ) → length book.now.codes < vars → AreUsages book.now cs vars lits.now
        → IfOk result (λ known. known ≡ true → Assumes book.now cs vars day question assumed.new.items) }
{
    match question {
        Question::Void => Ok(false),
        Question::Necessary(code) => {
            assume_one(assumed, Lit::new(code, false))?;
            Ok(true)
        }
        Question::Inadmissible(code) => {
            assume_one(assumed, Lit::new(code, true))?;
            Ok(true)
        }
        Question::Superfluous(variant) => assume_usage(assumed, lits, variant),
        Question::Ambiguous {
            position: _,
            first,
            second,
        } => assume_both(assumed, lits, first, second),
        Question::Uncovered(position) => assume_none(assumed, book, day, lits, position),
    }
}

// This literal.
fn assume_one(assumed: &mut Vec<Lit>, lit: Lit) -> Result<(), Memory>
    ensures { OnOk result (assumed.new.items ≡ lit ∷ []) }
{
    assumed.clear();
    assumed.push(lit)?;
    Ok(())
}

// These two.
fn assume_two(assumed: &mut Vec<Lit>, first: Lit, second: Lit) -> Result<(), Memory>
    ensures { OnOk result (assumed.new.items ≡ first ∷ second ∷ []) }
{
    assumed.clear();
    assumed.push(first)?;
    assumed.push(second)?;
    Ok(())
}

/// The literal of a variant's formula, if it is known.
pub(crate) fn usage_of(lits: &[Lit], variant: u32) -> Option<Lit>
    ensures { (b : Contents) (cs : List (List ℕ)) (vars : ℕ) → AreUsages b cs vars lits.now
        → IfSome result (IsUsage b cs vars variant) }
{
    let place = variant as usize;
    if place >= lits.len() {
        return None;
    }
    Some(lits[place])
}

// The formula of a variant is true.
fn assume_usage(assumed: &mut Vec<Lit>, lits: &[Lit], variant: u32) -> Result<bool, Memory>
    ensures { (b : Contents) (cs : List (List ℕ)) (vars day : ℕ) → AreUsages b cs vars lits.now
        → IfOk result (λ known. known ≡ true
        → Assumes b cs vars day (Question.Superfluous variant) assumed.new.items) }
{
    let Some(lit) = usage_of(lits, variant) else {
        return Ok(false);
    };
    assume_one(assumed, lit)?;
    Ok(true)
}

// Those of two variants are.
fn assume_both(
    assumed: &mut Vec<Lit>,
    lits: &[Lit],
    first: u32,
    second: u32,
) -> Result<bool, Memory>
    ensures { (b : Contents) (cs : List (List ℕ)) (vars day position : ℕ) → AreUsages b cs vars lits.now
        → IfOk result (λ known. known ≡ true
        → Assumes b cs vars day (Question.Ambiguous position first second) assumed.new.items) }
{
    let Some(one) = usage_of(lits, first) else {
        return Ok(false);
    };
    let Some(other) = usage_of(lits, second) else {
        return Ok(false);
    };
    assume_two(assumed, one, other)?;
    Ok(true)
}

// That of no active variant of a position is.
fn assume_none(
    assumed: &mut Vec<Lit>,
    book: &Book,
    day: Day,
    lits: &[Lit],
    position: u32,
) -> Result<bool, Memory>
    requires fits { position < length book.now.positions }
    ensures { (cs : List (List ℕ)) (vars : ℕ) → AreUsages book.now cs vars lits.now
        → IfOk result (λ known. known ≡ true
        → Assumes book.now cs vars day (Question.Uncovered position) assumed.new.items) }
{
    assumed.clear();
    let known = assume_unused(assumed, book, day, lits, book.variants_of(position))?;
    Ok(known)
}

// That of none of these variants which are active is.
fn assume_unused(
    assumed: &mut Vec<Lit>,
    book: &Book,
    day: Day,
    lits: &[Lit],
    variants: &[u32],
) -> Result<bool, Memory>
    requires fits { All (λ v. v < length book.now.variants) variants.now }
    requires none { assumed.old.items ≡ [] }
    ensures { (cs : List (List ℕ)) (vars : ℕ) → AreUsages book.now cs vars lits.now
        → IfOk result (λ known. known ≡ true
        → AssumesNone book.now cs vars day variants.now assumed.new.items) }
{
    for variant in variants {
        if !is_active(book, day, *variant) {
            continue;
        }
        let Some(lit) = usage_of(lits, *variant) else {
            return Ok(false);
        };
        assumed.push(lit.not())?;
    }
    Ok(true)
}

/// Whether no literal is assumed with its complement.
pub(crate) fn are_consistent(assumed: &[Lit]) -> bool
    ensures { result ≡ not (list_any (λ l. has assumed.now (complement l)) assumed.now) }
{
    !assumed.iter().any(|lit| has_complement(assumed, *lit))
}

/// Whether the clause of a kernel at this place has no literal but complements of what is assumed, which are these and those.
pub(crate) fn is_core(kernel: &Kernel, these: &[Lit], those: &[Lit], at: Ref) -> bool
    ensures follow { AllFollow kernel.now }
    ensures core { result ≡ true → IsCore kernel.now (these.now ++ those.now) at }
{
    let pool = kernel.pool();
    if at >= pool.len() {
        return false;
    }
    are_complements(pool.lits(at), these, those)
}

// Whether each of a clause's literals is the complement of one that is assumed.
fn are_complements(clause: &[Lit], these: &[Lit], those: &[Lit]) -> bool
    ensures { result ≡ not (list_any (λ l. not (has (these.now ++ those.now) (complement l))) clause.now) }
{
    !clause
        .iter()
        .any(|lit| lacks_complement(these, those, *lit))
}

// Whether the complement of a literal isn't assumed.
fn lacks_complement(these: &[Lit], those: &[Lit], lit: Lit) -> bool
    ensures { result ≡ not (has (these.now ++ those.now) (complement lit)) }
{
    let in_these = has_complement(these, lit);
    if in_these {
        return false;
    }
    let in_those = has_complement(those, lit);
    !in_those
}

// Whether it is.
fn has_complement(assumed: &[Lit], lit: Lit) -> bool
    ensures { result ≡ has assumed.now (complement lit) }
{
    is_among(assumed, lit.not())
}

fn is_among(assumed: &[Lit], lit: Lit) -> bool
    ensures { result ≡ has assumed.now lit }
{
    assumed.iter().any(|one| *one == lit)
}
