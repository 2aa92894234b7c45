//! From codes to the rules in whose formulas they occur.
ghost use Rattle.std.specs.Prelude.{◌≡◌, ◌<◌, ◌≤◌, [], length, replicate, Contains, IfOk, OnOk, IsTrue, All};
ghost use Rattle.pb_base.specs.Rule.{codes_below};
ghost use Rattle.pb_base.specs.Node.{is_below};
ghost use Rattle.pb_base.specs.declared.limits.TheConstants.{MOST_SUPPLEMENTS};
ghost use Rattle.book_model.specs.Book.{SupplementFits};
ghost use Rattle.supplement.specs.declared.worklist.Candidate.{Candidate};
ghost use Rattle.supplement.specs.Occurrences.{occurs, is_code, AreLinked, Notes, AreOccurrences};
ghost use Rattle.supplement.specs.Worklist.{AreCandidates, AreTryable, HoldsListed, Marks};

use crate::worklist::{Candidate, RuleSet, Worklist};
use book_model::{Supplement, fires};
use pb_base::{CodeSet, Day, Formula, Memory, Node};
use std::alloc::Global;

/// A rule in whose formula a code occurs.
#[derive(Clone, Copy)]
pub struct Entry {
    /// The place of the rule among the supplementing rules, counted from 0.
    pub rule: u32,
    /// The place of the next entry of the same code.
    pub next: Option<usize>,
}

/// For each code the supplementing rules in whose formulas it occurs, on whatever days they are active. The entries of all codes stand in one vector,
/// those of a code linked from its head.
#[derive(Drop)]
pub struct OccurrenceLists {
    /// For each code the place of its first entry.
    pub heads: Vec<Option<usize>>,
    pub entries: Vec<Entry>,
}

impl OccurrenceLists {
    /// The lists of these rules, over so many codes.
    pub fn of(
        alloc: Global,
        codes: u32,
        supplements: &[Supplement],
    ) -> Result<OccurrenceLists, Memory>
        requires fit { All (SupplementFits codes) supplements.now }
        requires places { length supplements.now ≤ MOST_SUPPLEMENTS }
        ensures { IfOk result (AreOccurrences codes supplements.now) }
    {
        let mut lists = empty_lists(alloc, codes)?;
        for (place, supplement) in supplements.iter().enumerate() {
            lists.note_codes(&supplement.rule, place as u32)?;
        }
        Ok(lists)
    }

    /// Marks the rules in whose formulas a code occurs, and puts those of them that fire to the others that are to be tried.
    pub fn add_rules_of(
        &self,
        code: u32,
        supplements: &[Supplement],
        day: Day,
        set: &CodeSet,
        worklist: &mut Worklist<'_>,
        marks: &mut RuleSet,
    ) -> Result<(), Memory>
        requires fit { All (SupplementFits (length set.now)) supplements.now }
        requires linked { AreLinked (length self.now.heads.items) (length supplements.now) self.now }
        requires in_range { code < length self.now.heads.items }
        requires candidates { AreCandidates supplements.now worklist.old }
        requires tryable { AreTryable supplements.now marks.old worklist.old }
        requires marks { length marks.old ≡ length supplements.now }
        ensures candidates { OnOk result (AreCandidates supplements.now worklist.new) }
        ensures keeps { OnOk result ((c : Candidate) → Contains worklist.old c → Contains worklist.new c) }
        ensures added { OnOk result (HoldsListed supplements.now self.now day set.now code worklist.new) }
        ensures tryable { OnOk result (AreTryable supplements.now marks.new worklist.new) }
        ensures marks { OnOk result (Marks self.now code marks.old marks.new) }
    {
        let mut at = self.heads[code as usize];
        while let Some(place) = at {
            let entry = self.entries[place];
            let supplement = &supplements[entry.rule as usize];
            marks.with(entry.rule);
            if fires(supplement, day, set) {
                worklist.push(Candidate {
                    rank: supplement.rank,
                    rule: entry.rule,
                })?;
            }
            at = entry.next;
        }
        Ok(())
    }

    // Notes the rule at each code of a formula.
    fn note_codes(&mut self, formula: &Formula, rule: u32) -> Result<(), Memory>
        requires { IsTrue (codes_below (length self.old.heads.items) formula.now) }
        ensures { OnOk result (Notes self.old self.new rule (λ c. occurs c formula.now)) }
    {
        for node in formula.nodes() {
            self.note_node(*node, rule)?;
        }
        Ok(())
    }

    // Notes the rule at a node that is a code.
    #[inline(always)]
    fn note_node(&mut self, node: Node, rule: u32) -> Result<(), Memory>
        requires { IsTrue (is_below (length self.old.heads.items) node) }
        ensures { OnOk result (Notes self.old self.new rule (λ c. is_code c node)) }
    {
        let Node::Code(code) = node else {
            return Ok(());
        };
        let place = self.entries.len();
        let next = self.heads[code as usize];
        self.entries.push(Entry { rule, next })?;
        self.heads[code as usize] = Some(place);
        Ok(())
    }
}

// The lists that have no rule.
fn empty_lists(alloc: Global, codes: u32) -> Result<OccurrenceLists, Memory>
    ensures heads { IfOk result (λ lists. lists.heads.items ≡ replicate codes None) }
    ensures entries { IfOk result (λ lists. lists.entries.items ≡ []) }
{
    let heads = vec![in alloc; None; codes as usize]?;
    Ok(OccurrenceLists {
        heads,
        entries: Vec::new(alloc),
    })
}
