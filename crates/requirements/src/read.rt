//! The requirements of a text.
ghost use Rattle.std.specs.Prelude.{◌≡◌, ◌≤◌, ◌^◌, ◌<◌, [], All, IfOk, OnOk, length};
ghost use Rattle.pb_base.specs.Answers.{Answers, Gives, Leaves};
ghost use Rattle.pb_base.specs.declared.answer.Fail.{Fail};
ghost use Rattle.pb_base.specs.declared.limits.TheConstants.{MOST_TEXT_BYTES};
ghost use Rattle.requirements.specs.Pass.{pass};
ghost use Rattle.requirements.specs.Requirements.{requirement_of, with_requirement, requirements_of, requirements_of_rows, claim_of, RequirementFits};
ghost use Rattle.requirements.specs.Stated.{stated_with, IsShortText};

use crate::fault::{RequirementFault, RequirementKind};
use crate::requirement::{Claim, Requirement};
use crate::stated::{Head, Stated, state_row};
use book_model::Book;
use book_text::{BookKind, Days, RowReader, TextRow, is_text};
use pb_base::limits::MOST_TEXT_BYTES;
use pb_base::{CodeTable, Fail, Formula, Id, Table};
use rule_text::read_rule;
use std::alloc::Global;

/// The requirements of a text on a book, or the first fault of the text: `require,ID,RULE,FROM,UNTIL` and
/// `uses,ID,PART,RULE,FROM,UNTIL`, a record a row. Rules are over the codes of the book, and an empty day is that of its term.
pub fn read_requirements(
    alloc: Global,
    text: &[u8],
    book: &Book,
) -> Result<Vec<Requirement>, Fail<RequirementFault>>
    ensures requirements { Gives result (λ rs. rs.items) (requirements_of book.now text.now) }
    ensures fit { IfOk result (λ rs. All (RequirementFits (length book.now.codes)) rs.items) }
    ensures few { IfOk result (λ rs. length rs.items ≤ MOST_TEXT_BYTES) }
{
    if text.len() > MOST_TEXT_BYTES {
        return Err(text_fault(BookKind::TooLarge));
    }
    if !is_text(text) {
        return Err(text_fault(BookKind::NotUtf8));
    }
    let mut rows = RowReader::of(alloc, text);
    requirements_of_rows(alloc, book, &mut rows)
}

// A fault of the text as a whole.
fn text_fault(kind: BookKind) -> Fail<RequirementFault>
    ensures { result ≡ Fail.Refused (record { row = 0; kind = RequirementKind.AsInBooks kind }) }
{
    Fail::Refused(RequirementFault {
        row: 0,
        kind: RequirementKind::AsInBooks(kind),
    })
}

// The requirements of its rows.
fn requirements_of_rows(
    alloc: Global,
    book: &Book,
    rows: &mut RowReader<'_>,
) -> Result<Vec<Requirement>, Fail<RequirementFault>>
    requires count { length rows.old ≤ MOST_TEXT_BYTES }
    ensures requirements { Gives result (λ rs. rs.items) (requirements_of_rows book.now rows.old) }
    ensures fit { IfOk result (λ rs. All (RequirementFits (length book.now.codes)) rs.items) }
    ensures few { IfOk result (λ rs. length rs.items ≤ MOST_TEXT_BYTES) }
{
    let term = book.term();
    let term = Days {
        from: term.first,
        until: term.last,
    };
    let mut stated = Vec::new(alloc);
    state_rows(alloc, term, rows, &mut stated)?;
    read_rules(alloc, book.codes(), &stated)
}

// The first pass: what each row states by itself, with an id that no row before it has.
fn state_rows(
    alloc: Global,
    term: Days,
    rows: &mut RowReader<'_>,
    stated: &mut Vec<Stated>,
) -> Result<(), Fail<RequirementFault>>
    requires count { length rows.old ≤ MOST_TEXT_BYTES }
    requires none { stated.old.items ≡ [] }
    ensures stated { Leaves result stated.new.items (pass (stated_with term) 1 [] rows.old) }
    ensures short { OnOk result (All IsShortText stated.new.items) }
    ensures few { OnOk result (length stated.new.items ≤ MOST_TEXT_BYTES) }
{
    let mut ids = Table::new(alloc);
    let mut row = TextRow::new(alloc);
    'rows: while rows.read(&mut row)? {
        match state_row(alloc, term, &row, &mut ids) {
            Ok(own) => stated.push(own)?,
            Err(Fail::Refused(kind)) => {
                let number = stated.len() as u32 + 1;
                return Err(Fail::Refused(RequirementFault { row: number, kind }));
            }
            Err(Fail::Memory) => return Err(Fail::Memory),
        }
    }
    Ok(())
}

// The second pass: the rules are read.
fn read_rules(
    alloc: Global,
    codes: &CodeTable,
    stated: &[Stated],
) -> Result<Vec<Requirement>, Fail<RequirementFault>>
    requires short { All IsShortText stated.now }
    requires few { length stated.now ≤ MOST_TEXT_BYTES }
    ensures requirements { Gives result (λ rs. rs.items) (pass (with_requirement codes.now) 1 [] stated.now) }
    ensures fit { IfOk result (λ rs. All (RequirementFits (length codes.now)) rs.items) }
    ensures few { IfOk result (λ rs. length rs.items ≤ length stated.now) }
{
    let mut all = Vec::new(alloc);
    for (k, own) in stated.iter().enumerate() {
        match requirement_of(alloc, codes, own) {
            Ok(requirement) => all.push(requirement)?,
            Err(Fail::Refused(kind)) => {
                let row = k as u32 + 1;
                return Err(Fail::Refused(RequirementFault { row, kind }));
            }
            Err(Fail::Memory) => return Err(Fail::Memory),
        }
    }
    Ok(all)
}

// The requirement that a row states.
fn requirement_of(
    alloc: Global,
    codes: &CodeTable,
    stated: &Stated,
) -> Result<Requirement, Fail<RequirementKind>>
    requires short { IsShortText stated.now }
    ensures requirement { Answers result (requirement_of codes.now stated.now) }
    ensures fit { IfOk result (RequirementFits (length codes.now)) }
{
    let rule = match read_rule(alloc, stated.text.as_slice(), codes) {
        Ok(rule) => rule,
        Err(fault) => {
            return Err(fault.map(|fault| RequirementKind::AsInBooks(BookKind::BadRule(fault))));
        }
    };
    Ok(Requirement {
        id: stated.head.id,
        claim: claim_of(&stated.head, rule),
        from: stated.head.days.from,
        until: stated.head.days.until,
    })
}

// What is claimed by this rule.
fn claim_of(head: &Head, rule: Formula) -> Claim
    ensures { result ≡ claim_of head.now.part rule }
{
    match head.part {
        None => Claim::Meets(rule),
        Some(part) => Claim::Uses { part, rule },
    }
}
