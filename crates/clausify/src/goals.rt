//! The goals of the questions of a slice, each with its literal.
ghost use Rattle.std.specs.Prelude.{◌≡◌, ◌+◌, ◌-◌, ◌^◌, ◌<◌, [], ◌∷◌, ◌++◌, IfOk, OnOk, map, length};
ghost use Rattle.clausify.specs.Choices.{choices};
ghost use Rattle.clausify.specs.Pairs.{pairs};
ghost use Rattle.clausify.specs.Goals.{pair_clauses, pairs_asked, none_clauses, none_literal, uncovered_clauses, uncovered_literal, choice_variables, choice_clauses, superfluous_asked, choice_asked, all_usages, goals_variables, goals_clauses, goals_asked, codes_asked_from};
ghost use Rattle.clausify.specs.Coded.{usages_start, numbered_at};
ghost use Rattle.clausify.specs.Encoding.{Encodes, EncodesPairs};

use crate::choices::active_count;
use crate::encoder::Encoder;
use crate::question::{Asked, Question};
use crate::usage::Usage;
use book_model::{Book, active};
use clause_pool::Lit;
use pb_base::{CodeTable, Day, Memory};

impl Encoder {
    // What has this literal, and none of the usages.
    fn and_none(&mut self, literal: Lit, usages: &[Usage]) -> Result<Lit, Memory>
        requires { self.old.next + length usages.now < 2 ^ 32 }
        ensures made { OnOk result (Encodes self.old self.new
            (none_clauses self.old.next literal usages.now) (length usages.now)) }
        ensures literal { IfOk result (λ l. l ≡ none_literal self.old.next literal usages.now) }
    {
        let mut none = literal;
        for usage in usages {
            none = self.both(none, usage.literal.not())?;
        }
        Ok(none)
    }

    // None of the usages.
    fn none_of(&mut self, usages: &[Usage]) -> Result<Lit, Memory>
        requires { self.old.next + (length usages.now - 1) < 2 ^ 32 }
        ensures made { OnOk result (Encodes self.old self.new
            (uncovered_clauses self.old.next usages.now) (length usages.now - 1)) }
        ensures literal { IfOk result (λ l. l ≡ uncovered_literal self.old.truth self.old.next usages.now) }
    {
        if usages.is_empty() {
            return Ok(Lit::new(self.truth, true));
        }
        self.and_none(usages[0].literal.not(), &usages[1..])
    }
}

/// The two questions of each code.
pub(crate) fn ask_codes(asked: &mut Vec<Asked>, codes: &CodeTable) -> Result<(), Memory>
    ensures { OnOk result (asked.new.items ≡ asked.old.items ++ codes_asked_from 0 codes.now) }
{
    for code in 0..codes.len() {
        asked.push(Asked {
            question: Question::Necessary(code),
            goal: Lit::new(code, false),
        })?;
        asked.push(Asked {
            question: Question::Inadmissible(code),
            goal: Lit::new(code, true),
        })?;
    }
    Ok(())
}

// Whether each variant is superfluous.
fn ask_superfluous(asked: &mut Vec<Asked>, usages: &[Usage]) -> Result<(), Memory>
    ensures { OnOk result (asked.new.items ≡ asked.old.items ++ map superfluous_asked usages.now) }
{
    for usage in usages {
        asked.push(Asked {
            question: Question::Superfluous(usage.variant),
            goal: usage.literal,
        })?;
    }
    Ok(())
}

// Whether these two variants are ambiguous.
fn ask_pair(
    encoder: &mut Encoder,
    asked: &mut Vec<Asked>,
    position: u32,
    first: &Usage,
    second: &Usage,
) -> Result<(), Memory>
    requires { encoder.old.next + 1 < 2 ^ 32 }
    ensures made { OnOk result (EncodesPairs encoder.old encoder.new ((first.now, second.now) ∷ [])) }
    ensures asked { OnOk result (asked.new.items ≡ asked.old.items
        ++ pairs_asked position encoder.old.next ((first.now, second.now) ∷ [])) }
{
    let goal = encoder.both(first.literal, second.literal)?;
    let question = Question::Ambiguous {
        position,
        first: first.variant,
        second: second.variant,
    };
    asked.push(Asked { question, goal })?;
    Ok(())
}

// Whether the first variant and a later one are ambiguous, for each later one.
fn ask_with(
    encoder: &mut Encoder,
    asked: &mut Vec<Asked>,
    position: u32,
    first: &Usage,
    later: &[Usage],
) -> Result<(), Memory>
    requires { encoder.old.next + length later.now < 2 ^ 32 }
    ensures made { OnOk result (Encodes encoder.old encoder.new
        (pair_clauses encoder.old.next (map (λ u. (first.now, u)) later.now)) (length later.now)) }
    ensures asked { OnOk result (asked.new.items ≡ asked.old.items
        ++ pairs_asked position encoder.old.next (map (λ u. (first.now, u)) later.now)) }
{
    for second in later {
        ask_pair(encoder, asked, position, first, second)?;
    }
    Ok(())
}

// Whether two variants of a position are ambiguous, for each pair.
fn ask_pairs(
    encoder: &mut Encoder,
    asked: &mut Vec<Asked>,
    position: u32,
    usages: &[Usage],
) -> Result<(), Memory>
    requires { encoder.old.next + length (pairs usages.now) < 2 ^ 32 }
    ensures made { OnOk result (EncodesPairs encoder.old encoder.new (pairs usages.now)) }
    ensures asked { OnOk result (asked.new.items ≡ asked.old.items
        ++ pairs_asked position encoder.old.next (pairs usages.now)) }
{
    for (place, first) in usages.iter().enumerate() {
        ask_with(encoder, asked, position, first, &usages[place + 1..])?;
    }
    Ok(())
}

// The questions of one choice: each variant, each pair of variants, and where the position is mandatory, whether it is
// uncovered.
fn ask_choice(
    encoder: &mut Encoder,
    asked: &mut Vec<Asked>,
    position: u32,
    mandatory: bool,
    usages: &[Usage],
) -> Result<(), Memory>
    requires { encoder.old.next + choice_variables mandatory usages.now < 2 ^ 32 }
    ensures made { OnOk result (Encodes encoder.old encoder.new
        (choice_clauses encoder.old.next mandatory usages.now) (choice_variables mandatory usages.now)) }
    ensures asked { OnOk result (asked.new.items ≡ asked.old.items
        ++ choice_asked encoder.old.truth encoder.old.next position mandatory usages.now) }
{
    ask_superfluous(asked, usages)?;
    ask_pairs(encoder, asked, position, usages)?;
    if mandatory {
        let goal = encoder.none_of(usages)?;
        let question = Question::Uncovered(position);
        asked.push(Asked { question, goal })?;
    }
    Ok(())
}

/// The questions of all choices, whose usages these are.
pub(crate) fn ask_choices(
    encoder: &mut Encoder,
    asked: &mut Vec<Asked>,
    book: &Book,
    day: Day,
    usages: &[Usage],
) -> Result<(), Memory>
    requires truth { encoder.old.truth ≡ length book.now.codes }
    requires usages { usages.now
        ≡ all_usages book.now (length book.now.codes) (usages_start book.now day) (choices book.now day) }
    requires room { encoder.old.next + goals_variables (numbered_at book.now day encoder.old.next) < 2 ^ 32 }
    ensures made { let cs = numbered_at book.now day encoder.old.next in
        OnOk result (Encodes encoder.old encoder.new (goals_clauses cs) (goals_variables cs)) }
    ensures asked { let cs = numbered_at book.now day encoder.old.next in
        OnOk result (asked.new.items ≡ asked.old.items ++ goals_asked (length book.now.codes) cs) }
{
    let mut left = usages;
    for (place, position) in book.positions().iter().enumerate() {
        if active(position.from, position.until, day) {
            let count = active_count(book, day, place as u32);
            let (own, later) = left.split_at(count);
            ask_choice(encoder, asked, place as u32, position.mandatory, own)?;
            left = later;
        }
    }
    Ok(())
}
