//! The line of a fault.
ghost use Rattle.std.specs.Prelude.{◌≡◌, ◌++◌, IfOk, OnOk};
ghost use Rattle.requirements.specs.FaultText.{kind_detail, requirement_fault_text};

use crate::fault::{RequirementFault, RequirementKind};
use book_text::BookKind;
use pb_base::{Body, Memory, Text, put_number};
use rule_text::put_rule_fault;
use std::alloc::Global;

/// `requirement fault ROW KIND`, with what the kind has to add: of a rule its fault and place, and ` requirements` of too many.
pub fn requirement_fault_text(alloc: Global, fault: &RequirementFault) -> Result<Body, Memory>
    ensures { IfOk result (λ text. text ≡ requirement_fault_text fault.now) }
{
    let mut text = Text::new(alloc);
    text.put(b"requirement fault")?;
    put_number(&mut text, u64::from(fault.row))?;
    put_number(&mut text, u64::from(fault.kind.number()))?;
    put_kind_detail(&mut text, &fault.kind)?;
    text.put(b"\n")?;
    Ok(text.into_body())
}

fn put_kind_detail(text: &mut Text, kind: &RequirementKind) -> Result<(), Memory>
    ensures { OnOk result (text.new ≡ text.old ++ kind_detail kind.now) }
{
    match kind {
        RequirementKind::AsInBooks(BookKind::BadRule(fault)) => put_rule_fault(text, fault),
        RequirementKind::AsInBooks(_) => Ok(()),
        RequirementKind::TooMany => text.put(b" requirements"),
    }
}
