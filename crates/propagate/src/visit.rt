//! What the clauses that watch a literal say where it has become false.
ghost use Rattle.std.specs.Prelude.{◌≡◌, ◌⊎◌, ◌+◌, ◌<◌, ◌≤◌, ◌^◌, [], ◌∷◌, ◌++◌, ℕ, List, length, slice_index_or, slice_get, IfOk, IfSome, IfNone, OnOk, OnErr, Ok, Some, None, true, false};
ghost use Rattle.std.specs.Bool.{OnTrue, OnFalse};
ghost use Rattle.clause_pool.specs.Literal.{complement};
ghost use Rattle.clause_pool.specs.Clause.{has};
ghost use Rattle.propagate.specs.Trail.{OthersFalse, AllFalse, IsReason};
ghost use Rattle.propagate.specs.Assignment.{IsAssigned, AreLiteralsOf};
ghost use Rattle.propagate.specs.Visiting.{scene, Looks, Passes, IsConflict, AllTrueIn};
ghost use Rattle.propagate.specs.Watching.{Grown, AreReasons, Keeps, AreTrue, HasTrue, IsWatching, EntryFits, clause_at, pair_of, list_of};

use crate::assignment::Assignment;
use crate::watch::Watch;
use crate::watches::WatchedClauses;
use clause_pool::Lit;
use pb_base::Memory;

/// What a look at one entry of a list finds.
pub(crate) enum Outcome {
    /// A literal of the clause is true.
    Kept,
    /// This other watched literal isn't true, and this further literal isn't false.
    Fresh(u32, u32),
    /// All literals of the clause are false.
    Conflict,
}

/// Where a pass over the entries of a list comes to.
pub(crate) enum Pass {
    /// The clause of each entry has a true literal.
    Done,
    /// The clause of the entry at this place is to watch these two.
    Shift(usize, u32, u32),
    /// All literals of this clause are false.
    Conflict(u32),
}

/// The literal of a code.
#[inline(always)]
pub(crate) fn literal(code: u32) -> Lit
    ensures { result ≡ code }
{
    Lit::new(code / 2, code % 2 == 0)
}

/// The first literal of a clause that isn't false, and isn't the one that is left out.
#[inline(always)]
pub(crate) fn other_open(assignment: &Assignment, codes: &[u32], left_out: u32) -> Option<u32>
    requires { AreLiteralsOf assignment.now codes.now }
    ensures is_in { IfSome result (λ l. has codes.now l ≡ true) }
    ensures apart { IfSome result (λ l. left_out ≡ l → ⊥) }
    ensures not_false { IfSome result (λ l. has assignment.now.lits (complement l) ≡ false) }
    ensures none { IfNone result (OthersFalse assignment.now.lits codes.now left_out) }
{
    for code in codes {
        if !assignment.is_false(*code) && *code != left_out {
            return Some(*code);
        }
    }
    None
}

/// Makes true the one literal of a clause that isn't false, unless it is so already.
#[inline(always)]
pub(crate) fn put_only(assignment: &mut Assignment, code: u32, clause: u32)
    requires below { code < assignment.old.vars + assignment.old.vars }
    requires not_false { has assignment.old.lits (complement code) ≡ false }
    ensures grown { Grown assignment.old assignment.new }
    ensures reasoned { (clauses : List (List ℕ)) → IsReason clauses assignment.old.lits code clause
        → AreReasons clauses assignment.old → AreReasons clauses assignment.new }
    ensures put { has assignment.new.lits code ≡ true }
    ensures assigned { IsAssigned assignment.new }
{
    if assignment.value(code).is_some() {
        return;
    }
    assignment.put(literal(code), Some(clause));
}

/// A clause is false but for this literal: it becomes true, unless it is false too.
#[inline(always)]
pub(crate) fn put_last(assignment: &mut Assignment, code: u32, clause: u32) -> bool
    requires { code < assignment.old.vars + assignment.old.vars }
    ensures grown { Grown assignment.old assignment.new }
    ensures reasoned { (clauses : List (List ℕ)) → IsReason clauses assignment.old.lits code clause
        → AreReasons clauses assignment.old → AreReasons clauses assignment.new }
    ensures put { OnTrue result (has assignment.new.lits code ≡ true) }
    ensures unchanged { OnFalse result (assignment.new ≡ assignment.old) }
    ensures is_false { OnFalse result (has assignment.old.lits (complement code) ≡ true) }
{
    if assignment.is_false(code) {
        return false;
    }
    put_only(assignment, code, clause);
    true
}

// Looks at an entry of the list of a literal that has become false: at its blocker first, and at its clause where that isn't true.
#[inline(always)]
fn look(assignment: &mut Assignment, watched: &WatchedClauses, code: u32, entry: Watch) -> Outcome
    requires codes { length watched.now.lists ≡ assignment.old.vars + assignment.old.vars }
    requires watching { IsWatching watched.now }
    requires fits { EntryFits watched.now code entry }
    requires is_false { has assignment.old.lits (complement code) ≡ true }
    ensures keeps { Keeps assignment.old assignment.new watched.now watched.now }
    ensures looks { Looks (scene assignment.new watched.now) code entry result }
{
    if assignment.is_true(entry.blocker) {
        return Outcome::Kept;
    }
    if !entry.is_binary {
        return look_further(assignment, watched, code, entry);
    }
    if put_last(assignment, entry.blocker, entry.clause) {
        return Outcome::Kept;
    }
    Outcome::Conflict
}

// The same where the entry alone doesn't tell: looks at the clause.
#[inline(always)]
fn look_further(
    assignment: &mut Assignment,
    watched: &WatchedClauses,
    code: u32,
    entry: Watch,
) -> Outcome
    requires codes { length watched.now.lists ≡ assignment.old.vars + assignment.old.vars }
    requires watching { IsWatching watched.now }
    requires fits { EntryFits watched.now code entry }
    requires is_false { has assignment.old.lits (complement code) ≡ true }
    ensures keeps { Keeps assignment.old assignment.new watched.now watched.now }
    ensures looks { Looks (scene assignment.new watched.now) code entry result }
{
    let clause = entry.clause;
    let other = watched.other_of(clause, code);
    if assignment.is_true(other) {
        return Outcome::Kept;
    }
    if let Some(fresh) = other_open(assignment, watched.codes(clause), other) {
        return Outcome::Fresh(other, fresh);
    }
    if put_last(assignment, other, clause) {
        return Outcome::Kept;
    }
    Outcome::Conflict
}

// Goes through the entries of a literal that has become false, from this place on, up to the first that has to move or whose clause
// is false.
#[inline(always)]
fn go_through(assignment: &mut Assignment, watched: &WatchedClauses, code: u32, from: usize) -> Pass
    requires codes { length watched.now.lists ≡ assignment.old.vars + assignment.old.vars }
    requires code { code < length watched.now.lists }
    requires is_false { has assignment.old.lits (complement code) ≡ true }
    requires from { from ≤ length (list_of watched.now code) }
    ensures keeps { Keeps assignment.old assignment.new watched.now watched.now }
    ensures passes { AreTrue assignment.old watched.now code from
        → Passes (scene assignment.new watched.now) code from result }
{
    let entries = watched.entries(code);
    let mut at = from;
    while at < entries.len() {
        let entry = entries[at].watch();
        match look(assignment, watched, code, entry) {
            Outcome::Kept => {
                at += 1;
                continue;
            }
            Outcome::Fresh(other, fresh) => return Pass::Shift(at, other, fresh),
            Outcome::Conflict => return Pass::Conflict(entry.clause),
        }
    }
    Pass::Done
}

/// Looks at all entries of a literal that has become false, up to the first clause that is false.
pub(crate) fn visit(
    assignment: &mut Assignment,
    watched: &mut WatchedClauses,
    code: u32,
) -> Result<Option<u32>, Memory>
    requires codes { length watched.old.lists ≡ assignment.old.vars + assignment.old.vars }
    requires code { code < length watched.old.lists }
    requires is_false { has assignment.old.lits (complement code) ≡ true }
    ensures keeps { Keeps assignment.old assignment.new watched.old watched.new }
    ensures conflict { IfOk result (λ found. IfSome found (IsConflict (scene assignment.new watched.new))) }
    ensures all_true { result ≡ Ok None → AllTrueIn (scene assignment.new watched.new) code }
{
    let mut from = 0;
    loop {
        match go_through(assignment, watched, code, from) {
            Pass::Done => return Ok(None),
            Pass::Shift(at, other, fresh) => {
                watched.shift(code, at, other, fresh)?;
                from = at;
            }
            Pass::Conflict(clause) => return Ok(Some(clause)),
        }
    }
}
