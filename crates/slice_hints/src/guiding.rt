//! Where a search is pointed, so that few sets answer all questions. No answer hangs on it.
ghost use Rattle.std.specs.Prelude.{◌<◌, length};
ghost use Rattle.clausify.specs.Questions.{QuestionFits};

use crate::found::Found;
use crate::sets::Sets;
use crate::usages::Usages;
use book_model::Book;
use clause_pool::Lit;
use clausify::{Asked, Question, is_active};
use pb_base::{Day, Node};
use preparing::Refuter;

/// Leaves the literals at which a search for a set that meets a question's goal is pointed, the last one first. One for a code or
/// a variant is pointed at what no set has shown yet, one for two variants or for a position at the codes of their formulas.
pub fn guide(
    hints: &mut Vec<Lit>,
    book: &Book,
    day: Day,
    sets: &Sets,
    usages: &Usages,
    refuter: &Refuter,
    question: Question,
)
    requires { QuestionFits book.now question }
{
    hints.clear();
    match question {
        Question::Void => {}
        Question::Necessary(_) | Question::Inadmissible(_) => prefer_new_codes(hints, book, sets),
        Question::Superfluous(_) => prefer_new_usages(hints, book, day, sets, &usages.asked),
        Question::Ambiguous {
            position: _,
            first,
            second,
        } => {
            prefer_codes_of(hints, book, sets, second);
            prefer_codes_of(hints, book, sets, first);
        }
        Question::Uncovered(position) => {
            prefer_codes_at(hints, book, day, sets, position);
            prefer_disjunctions_at(hints, book, day, usages, refuter, position);
        }
    }
}

// A further hint. Where there is no room, it is none.
fn prefer(hints: &mut Vec<Lit>, lit: Lit) {
    let _ = hints.push(lit);
}

// Prefers each code that every set has or none, with the other value.
fn prefer_new_codes(hints: &mut Vec<Lit>, book: &Book, sets: &Sets) {
    for code in 0..book.codes().len() {
        match sets.new_value(code) {
            Some(value) => prefer(hints, Lit::new(code, value)),
            None => {}
        }
    }
}

// Prefers the formula of each active variant that is true over no set.
fn prefer_new_usages(hints: &mut Vec<Lit>, book: &Book, day: Day, sets: &Sets, usages: &[Asked]) {
    for asked in usages {
        match asked.question {
            Question::Superfluous(variant) => {
                let is_there = (variant as usize) < book.variants().len();
                if is_there && sets.using(variant) == 0 && is_active(book, day, variant) {
                    prefer(hints, asked.goal);
                }
            }
            _ => {}
        }
    }
}

// Prefers the codes of the formulas of a position's active variants.
fn prefer_codes_at(hints: &mut Vec<Lit>, book: &Book, day: Day, sets: &Sets, position: u32)
    requires { position < length book.now.positions }
{
    for variant in book.variants_of(position) {
        if is_active(book, day, *variant) {
            prefer_codes_of(hints, book, sets, *variant);
        }
    }
}

// Prefers the disjunctions that are parts of the formulas of a position's active variants, true at first: what is learnt then speaks
// of them, and not of each code that they are of. Of those of the same literals, the one that the others imply is.
fn prefer_disjunctions_at(
    hints: &mut Vec<Lit>,
    book: &Book,
    day: Day,
    usages: &Usages,
    refuter: &Refuter,
    position: u32,
)
    requires { position < length book.now.positions }
{
    for variant in book.variants_of(position) {
        if is_active(book, day, *variant) {
            prefer_disjunctions_of(hints, usages, refuter, *variant);
        }
    }
}

fn prefer_disjunctions_of(hints: &mut Vec<Lit>, usages: &Usages, refuter: &Refuter, variant: u32) {
    let Some(span) = usages.span(variant) else {
        return;
    };
    for var in span.from..span.until {
        if let Some(first) = refuter.first_of(var) {
            prefer(hints, Lit::new(first, true));
        }
    }
}

// Prefers the codes of a variant's formula, each with the value that the latest set gives it.
fn prefer_codes_of(hints: &mut Vec<Lit>, book: &Book, sets: &Sets, variant: u32)
    requires { variant < length book.now.variants }
{
    match sets.latest() {
        Some(latest) => prefer_nodes(
            hints,
            book.variants()[variant as usize].rule.nodes(),
            latest,
        ),
        None => {}
    }
}

fn prefer_nodes(hints: &mut Vec<Lit>, nodes: &[Node], latest: &Found) {
    for node in nodes {
        match *node {
            Node::Code(code) => {
                if code < latest.set.len() {
                    prefer(hints, Lit::new(code, latest.set.has(code)));
                }
            }
            _ => {}
        }
    }
}
