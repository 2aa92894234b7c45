//! The words that tell of a rule's fault.
ghost use Rattle.std.specs.Prelude.{◌≡◌, ◌++◌, OnOk};
ghost use Rattle.rule_text.specs.FaultText.{rule_place, rule_fault_text};

use crate::fault::RuleFault;
use pb_base::{Memory, Text, put_number, put_optional};

/// Puts the number of a rule's fault, and its place in the text where it has one, without the end of a line.
pub fn put_rule_fault(text: &mut Text, fault: &RuleFault) -> Result<(), Memory>
    ensures { OnOk result (text.new ≡ text.old ++ rule_fault_text fault.now) }
{
    put_number(text, u64::from(fault.number()))?;
    put_optional(text, rule_place(fault))
}

fn rule_place(fault: &RuleFault) -> Option<u64>
    ensures { result ≡ rule_place fault.now }
{
    match fault {
        RuleFault::Empty => None,
        RuleFault::BadByte(at) => Some(u64::from(*at)),
        RuleFault::UnknownCode(at) => Some(u64::from(*at)),
        RuleFault::Expected(at) => Some(u64::from(*at)),
        RuleFault::TooDeep(at) => Some(u64::from(*at)),
        RuleFault::TooLong(at) => Some(u64::from(*at)),
    }
}
