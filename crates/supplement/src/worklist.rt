//! The rules that are to be tried.
ghost use Rattle.std.specs.Prelude.{◌≡◌, ◌<◌, [], ◌∷◌, IfSome, IfNone, OnOk, All, IsPermutation, length, true, false};
ghost use Rattle.std.specs.BinaryHeap.{heap_items, IsHeap};
ghost use Rattle.supplement.specs.Worklist.{candidates_in, ComesBefore, Rises, reversed};
ghost use Rattle.supplement.specs.declared.worklist.Candidate.{Candidate};

use pb_base::{CodeSet, Memory};
use std::alloc::Global;
use std::cmp::Reverse;
use std::collections::BinaryHeap;
use std::marker::Model;

/// A supplementing rule that may fire. The lowest rank comes first, and at one rank the earliest record.
#[derive(Clone, Copy, PartialEq, Eq, PartialOrd, Ord)]
pub struct Candidate {
    pub rank: u32,
    /// The place of the rule among the supplementing rules, counted from 0.
    pub rule: u32,
}

/// A set of supplementing rules: a truth value for each, in record order.
pub type RuleSet = CodeSet;

/// Rules that are to be tried, of which the first is taken out: some that stand in order from the start, and those that were
/// pushed. A rule may be in it more than once.
#[derive(Drop)]
pub struct Worklist<'a> {
    standing: &'a [Candidate],
    pushed: BinaryHeap<Reverse<Candidate>>,
}

impl<'a> Model for Worklist<'a> {
    ghost use Rattle.std.specs.Prelude.{List, ◌++◌};
    ghost use Rattle.std.specs.BinaryHeap.{heap_items, IsHeap};
    ghost use Rattle.supplement.specs.Worklist.{candidates_in, Rises, reversed};
    ghost use Rattle.supplement.specs.declared.worklist.Candidate.{Candidate};

    ghost Value = { List Candidate };

    ghost view = { λ w. w.standing.now ++ candidates_in (heap_items w.pushed) };

    ghost invariant = { λ w. Rises w.standing.now × IsHeap reversed (heap_items w.pushed) };
}

impl<'a> Worklist<'a> {
    /// These rules are to be tried.
    pub fn over(alloc: Global, standing: &'a [Candidate]) -> Worklist<'a>
        requires { Rises standing.now }
        ensures { result ≡ standing.now }
    {
        Worklist {
            standing,
            pushed: BinaryHeap::new(alloc),
        }
    }

    /// Puts a rule to the others.
    pub fn push(&mut self, candidate: Candidate) -> Result<(), Memory>
        ensures { OnOk result (IsPermutation (candidate ∷ self.old) self.new) }
    {
        self.pushed.push(Reverse(candidate))?;
        Ok(())
    }

    /// Takes the first rule out.
    pub fn pop(&mut self) -> Option<Candidate>
        ensures moved { IfSome result (λ candidate. IsPermutation self.old (candidate ∷ self.new)) }
        ensures first { IfSome result (λ candidate. All (ComesBefore candidate) self.new) }
        ensures none { IfNone result (self.old ≡ []) }
    {
        let standing = self.standing;
        match standing.split_first() {
            None => pop_pushed(&mut self.pushed),
            Some((first, rest)) => {
                if has_before(&self.pushed, *first) {
                    pop_pushed(&mut self.pushed)
                } else {
                    self.standing = rest;
                    Some(*first)
                }
            }
        }
    }
}

// Whether a rule that was pushed comes before this one.
fn has_before(pushed: &BinaryHeap<Reverse<Candidate>>, candidate: Candidate) -> bool
    requires { IsHeap reversed (heap_items pushed.now) }
    ensures some { result ≡ true → 0 < length (candidates_in (heap_items pushed.now)) }
    ensures before { result ≡ true → (t : Candidate)
        → All (ComesBefore t) (candidates_in (heap_items pushed.now)) → ComesBefore t candidate }
    ensures none { result ≡ false → All (ComesBefore candidate) (candidates_in (heap_items pushed.now)) }
{
    match pushed.peek() {
        None => false,
        Some(first) => first.0.cmp(&candidate).is_lt(),
    }
}

// Takes the first of the rules that were pushed.
fn pop_pushed(pushed: &mut BinaryHeap<Reverse<Candidate>>) -> Option<Candidate>
    requires { IsHeap reversed (heap_items pushed.old) }
    ensures heap { IsHeap reversed (heap_items pushed.new) }
    ensures moved { IfSome result (λ candidate. IsPermutation (candidates_in (heap_items pushed.old))
        (candidate ∷ candidates_in (heap_items pushed.new))) }
    ensures least { IfSome result (λ candidate.
        All (ComesBefore candidate) (candidates_in (heap_items pushed.old))) }
    ensures first { IfSome result (λ candidate.
        All (ComesBefore candidate) (candidates_in (heap_items pushed.new))) }
    ensures none { IfNone result (candidates_in (heap_items pushed.old) ≡ []) }
{
    let Reverse(candidate) = pushed.pop()?;
    Some(candidate)
}
