//! Tries to leave entries out, by one solver in which each of them has a guard.
ghost use Rattle.std.specs.Prelude.{◌≡◌, ◌==◌, not, ◌+◌, ◌^◌, ◌<◌, ◌≤◌, ◌&&◌, ℕ, [], IfOk, IfSome, OnOk, length, slice_index_or, true, false};
ghost use Rattle.pb_base.specs.Sets.{has};
ghost use Rattle.pb_base.specs.declared.limits.TheConstants.{MOST_BUDGET};
ghost use Rattle.clause_pool.specs.Clause.{has as has_literal};
ghost use Rattle.clause_pool.specs.Literal.{literal};
ghost use Rattle.blame.specs.Blame.{AreFew};
ghost use Rattle.blame.specs.Cases.{FitsCase, GuardsCase, IsSearched, MarksCase};
ghost use Rattle.blame.specs.Guards.{AreAllGuards};
ghost use Rattle.blame.specs.Guarding.{AreFewer, AreFurtherOn, AreNamed, AreStill, IsMarkedAlso, IsSettled, IsUntried};

use crate::case::Case;
use crate::deciding::search_guarded;
use crate::marks::Marks;
use crate::noting::note_need;
use crate::places::Places;
use clause_pool::{Lit, Pool, Ref};
use pb_base::Memory;
use solver::{Answer, Solver};
use std::alloc::Global;

/// Lets the entry at a place go, if no set meets the others that are kept together with the rule, and with it all that the search
/// made no use of. If one does, the entry is needed. Where the search is left, that is noted. Nothing is tried where one of these is
/// known.
#[tactic(auto, using(crate::proofs::MarkLaws::settled_known, crate::proofs::MarkLaws::further_self))]
pub(crate) fn try_without(
    alloc: Global,
    case: &Case,
    budget: u32,
    places: &Places,
    solver: &mut Solver,
    marks: &mut Marks,
    at: usize,
) -> Result<(), Memory>
    requires few { AreFew case.now.entries.now }
    requires rule { FitsCase case.now }
    requires guarding { GuardsCase case.now solver.old }
    requires marked { MarksCase case.now budget marks.old }
    requires some { 0 < budget }
    requires most { budget ≤ MOST_BUDGET }
    ensures guarding { GuardsCase case.now solver.new }
    ensures marked { OnOk result (MarksCase case.now budget marks.new) }
    ensures further { OnOk result (AreFurtherOn marks.old marks.new) }
    ensures settled { OnOk result (IsSettled at marks.new) }
{
    if !is_untried(marks, at) {
        return Ok(());
    }
    try_untried(alloc, case, budget, places, solver, marks, at)
}

// The same where none is known.
fn try_untried(
    alloc: Global,
    case: &Case,
    budget: u32,
    places: &Places,
    solver: &mut Solver,
    marks: &mut Marks,
    at: usize,
) -> Result<(), Memory>
    requires few { AreFew case.now.entries.now }
    requires rule { FitsCase case.now }
    requires guarding { GuardsCase case.now solver.old }
    requires marked { MarksCase case.now budget marks.old }
    requires kept { has marks.old.kept.items at ≡ true }
    requires some { 0 < budget }
    requires most { budget ≤ MOST_BUDGET }
    ensures guarding { GuardsCase case.now solver.new }
    ensures marked { OnOk result (MarksCase case.now budget marks.new) }
    ensures further { OnOk result (AreFurtherOn marks.old marks.new) }
    ensures settled { OnOk result (IsSettled at marks.new) }
{
    let answer = search_but(alloc, case, budget, solver, &marks.kept, at)?;
    match answer {
        Answer::Set(set) => {
            note_need(alloc, case, places, marks, at, &set)?;
            Ok(())
        }
        Answer::Closed(place) => {
            keep_used(alloc, case, marks, solver, place, at)?;
            Ok(())
        }
        Answer::Spent(learnt) => {
            note_left(marks, at, learnt);
            Ok(())
        }
    }
}

// Looks for a set that meets the rule and all kept entries but that at a place.
fn search_but(
    alloc: Global,
    case: &Case,
    budget: u32,
    solver: &mut Solver,
    kept: &[bool],
    but: usize,
) -> Result<Answer, Memory>
    requires few { AreFew case.now.entries.now }
    requires guarding { GuardsCase case.now solver.old }
    requires counted { length kept.now ≡ length case.now.entries.now }
    requires some { 0 < budget }
    requires most { budget ≤ MOST_BUDGET }
    ensures guarding { GuardsCase case.now solver.new }
    ensures searched { IfOk result (IsSearched case.now kept.now but budget solver.new) }
{
    let codes = case.book.codes().len();
    let lits = guards_but(alloc, codes, kept, but)?;
    search_guarded(solver, &lits, budget)
}

// A search without the entry at a place was left. What it learnt isn't told.
fn note_left(marks: &mut Marks, at: usize, _learnt: Pool)
    ensures kept { marks.new.kept ≡ marks.old.kept }
    ensures needed { marks.new.needed ≡ marks.old.needed }
    ensures left { IsMarkedAlso at marks.old.left.items marks.new.left.items }
{
    mark(&mut marks.left, at);
}

fn mark(marks: &mut Vec<bool>, at: usize)
    ensures { IsMarkedAlso at marks.old.items marks.new.items }
{
    if at < marks.len() {
        marks[at] = true;
    }
}

/// Looks whether no set meets all entries together with the rule. Then those are kept of which the search made use, and the place of the
/// clause is told of which it made it.
pub(crate) fn try_all(
    alloc: Global,
    case: &Case,
    budget: u32,
    solver: &mut Solver,
    marks: &mut Marks,
) -> Result<Option<Ref>, Memory>
    requires few { AreFew case.now.entries.now }
    requires guarding { GuardsCase case.now solver.old }
    requires untried { IsUntried (length case.now.entries.now) marks.old }
    requires some { 0 < budget }
    requires most { budget ≤ MOST_BUDGET }
    ensures guarding { GuardsCase case.now solver.new }
    ensures marked { IfOk result (λ found. IfSome found (λ place. MarksCase case.now budget marks.new)) }
{
    let count = case.entries.len();
    let answer = search_but(alloc, case, budget, solver, &marks.kept, count)?;
    match answer {
        Answer::Closed(place) => {
            keep_used(alloc, case, marks, solver, place, count)?;
            Ok(Some(place))
        }
        Answer::Set(_) => Ok(None),
        Answer::Spent(_) => Ok(None),
    }
}

fn is_untried(marks: &Marks, at: usize) -> bool
    ensures { result ≡ (has marks.now.kept.items at
        && not (has marks.now.needed.items at) && not (has marks.now.left.items at)) }
{
    is_marked(&marks.kept, at) && !is_marked(&marks.needed, at) && !is_marked(&marks.left, at)
}

fn is_marked(marks: &[bool], at: usize) -> bool
    ensures { result ≡ has marks.now at }
{
    marks.get(at) == Some(&true)
}

// The literals that the guards of the entries are there that are kept, but for that at a place, and that the others aren't. The last
// comes first: so clauses that are learnt watch the guard that is assumed last.
fn guards_but(alloc: Global, first: u32, kept: &[bool], but: usize) -> Result<Vec<Lit>, Memory>
    requires { first + length kept.now < 2 ^ 31 }
    ensures { IfOk result (λ lits. AreAllGuards first kept.now but lits.items) }
{
    let mut lits = Vec::with_capacity(alloc, kept.len())?;
    let mut left = kept.len();
    while left > 0 {
        left -= 1;
        let stays = stays(kept, but, left);
        lits.push(Lit::new(first + left as u32, stays))?;
    }
    Ok(lits)
}

// Whether the entry at a place is kept, and isn't the one at the other place.
fn stays(kept: &[bool], but: usize, place: usize) -> bool
    requires { place < length kept.now }
    ensures { result ≡ (has kept.now place && not (place == but)) }
{
    kept[place] && place != but
}

// No set meets the entries of which the clause at a place of the solver's kernel denies the guards, together with the rule: only these
// are kept, and not the one that was left out.
fn keep_used(
    alloc: Global,
    case: &Case,
    marks: &mut Marks,
    solver: &Solver,
    at: Ref,
    but: usize,
) -> Result<(), Memory>
    requires { at < length solver.now.kernel.clauses }
    ensures needed { marks.new.needed ≡ marks.old.needed }
    ensures left { marks.new.left ≡ marks.old.left }
    ensures kept { AreFewer marks.old.kept.items marks.new.kept.items }
    ensures left_out { OnOk result (has marks.new.kept.items but ≡ false) }
    ensures used { let clause = slice_index_or solver.now.kernel.clauses at [] in
        OnOk result (AreStill (length case.now.book.now.codes) but clause marks.old.kept.items marks.new.kept.items) }
{
    let codes = case.book.codes().len();
    let pool = solver.kernel().pool();
    let named = denied_by(alloc, codes, marks.kept.len(), pool.lits(at))?;
    keep_named(&mut marks.kept, &named);
    leave_out(&mut marks.kept, but);
    Ok(())
}

// The entry at a place isn't kept.
fn leave_out(kept: &mut Vec<bool>, but: usize)
    ensures fewer { AreFewer kept.old.items kept.new.items }
    ensures left_out { has kept.new.items but ≡ false }
    ensures others { (k : ℕ) → (k ≡ but → ⊥) → has kept.old.items k ≡ true
        → has kept.new.items k ≡ true }
{
    if but < kept.len() {
        kept[but] = false;
    }
}

// For each of so many entries, whether a clause denies its guard.
fn denied_by(alloc: Global, first: u32, count: usize, clause: &[Lit]) -> Result<Vec<bool>, Memory>
    ensures { IfOk result (λ named. AreNamed first count clause.now named.items) }
{
    let mut named = vec![in alloc; false; count]?;
    for lit in clause {
        let place = lit.var().wrapping_sub(first) as usize;
        if place < named.len() {
            named[place] = true;
        }
    }
    Ok(named)
}

// Of the kept entries those that are named are kept.
fn keep_named(kept: &mut Vec<bool>, named: &[bool])
    ensures fewer { AreFewer kept.old.items kept.new.items }
    ensures still { (k : ℕ) → has kept.old.items k ≡ true → has named.now k ≡ true
        → has kept.new.items k ≡ true }
{
    for place in 0..kept.len() {
        if named.get(place) != Some(&true) {
            kept[place] = false;
        }
    }
}
