//! Rules as questions: does some car of a day meet one?
ghost use Rattle.std.specs.Prelude.{◌≡◌, ◌+◌, ◌^◌, ◌<◌, All, IfOk, OnOk, length, map, true};
ghost use Rattle.book_model.specs.Good.{is_good};
ghost use Rattle.clausify.specs.Encoding.{EncodesItems};
ghost use Rattle.clausify.specs.Formulas.{literals_from};
ghost use Rattle.clausify.specs.Items.{free_item, variables_of};
ghost use Rattle.rules_met.specs.Source as source;
ghost use Rattle.rules_met.specs.Source.{AreRules, rules_at};
ghost use Rattle.rules_met.specs.Met.{asked_clauses, asked_variables, asked_literals};

use book_model::{Book, is_good};
use clause_pool::Lit;
use clausify::{Encoded, Encoder, add_rules};
use inquiry::{Coded, Inquiry};
use pb_base::{CodeSet, Day, Formula, Memory};
use std::alloc::Global;

// The most variables that rules of one solver add together, as they count them. Each of them slows a search, also where it asks
// of another rule.
const MOST_TOGETHER: u32 = 4_096;

/// Rules over the codes of a book, each asked by its place among them.
#[derive(Clone, Copy)]
pub(crate) struct DayRules<'a> {
    pub book: &'a Book,
    pub day: Day,
    pub rules: &'a [Formula],
}

impl<'a> Inquiry for DayRules<'a> {
    type Question = u32;

    ghost IsReady = { λ s. AreRules s.book.now s.rules.now };

    ghost IsPosed = { λ s q. q < length s.rules.now };

    ghost MayShow = { λ s x. is_good s.book.now s.day x ≡ true };

    ghost form = { λ s. source.form s.book.now s.day s.rules.now };

    fn codes(&self) -> u32 {
        self.book.codes().len()
    }

    fn most_together(&self) -> u32 {
        MOST_TOGETHER
    }

    fn size(&self, question: u32) -> u32 {
        self.rules[question as usize].nodes().len() as u32
    }

    fn encode(&self, alloc: Global, questions: &[u32]) -> Result<Coded, Memory> {
        coded_rules(alloc, self.book, self.day, self.rules, questions)
    }

    fn shows(&self, _alloc: Global, question: u32, set: &CodeSet) -> Result<bool, Memory> {
        Ok(self.rules[question as usize].holds(set))
    }

    fn may_show(&self, set: &CodeSet) -> bool {
        is_good(self.book, self.day, set)
    }

    fn lawful(&self) {}
}

// The clauses of the day's rules, and of those of the rules that are asked.
fn coded_rules(
    alloc: Global,
    book: &Book,
    day: Day,
    rules: &[Formula],
    questions: &[u32],
) -> Result<Coded, Memory>
    requires within { All (λ q. q < length rules.now) questions.now }
    requires room { asked_variables book.now day (rules_at rules.now questions.now) < 2 ^ 32 }
    ensures clauses { IfOk result (λ c. c.pool.clauses ≡ asked_clauses book.now day (rules_at rules.now questions.now)) }
    ensures vars { IfOk result (λ c. c.vars ≡ asked_variables book.now day (rules_at rules.now questions.now)) }
    ensures goals { IfOk result (λ c. c.goals.items ≡ asked_literals book.now day (rules_at rules.now questions.now)) }
{
    let mut encoder = Encoder::new(alloc, book.codes().len())?;
    let mut starts = Vec::new(alloc);
    add_rules(&mut encoder, &mut starts, book, day)?;
    let goals = literals(alloc, &mut encoder, rules, questions)?;
    let Encoded {
        pool,
        vars,
        gates: _,
    } = encoder.into_parts();
    Ok(Coded { pool, vars, goals })
}

// The literals of the rules that are asked, with their clauses made.
fn literals(
    alloc: Global,
    encoder: &mut Encoder,
    rules: &[Formula],
    questions: &[u32],
) -> Result<Vec<Lit>, Memory>
    requires within { All (λ q. q < length rules.now) questions.now }
    requires room { encoder.old.next + variables_of (map free_item (rules_at rules.now questions.now)) < 2 ^ 32 }
    ensures made { OnOk result (EncodesItems encoder.old encoder.new (map free_item (rules_at rules.now questions.now))) }
    ensures literals { IfOk result (λ ls. ls.items
        ≡ literals_from encoder.old.truth encoder.old.next (rules_at rules.now questions.now)) }
{
    let mut lits = Vec::new(alloc);
    for question in questions {
        let lit = encoder.literal(&rules[*question as usize])?;
        lits.push(lit)?;
    }
    Ok(lits)
}
