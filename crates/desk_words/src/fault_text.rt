//! The lines that tell of a fault.
ghost use Rattle.std.specs.Prelude.{◌≡◌, ◌++◌, OnOk};
ghost use Rattle.desk_words.specs.FaultText.{which_text, kind_detail, book_fault_text, order_place, order_fault_text, limit_text, limit_fault_text};

use book_model::LimitFault;
use book_text::{BookFault, BookKind, Which};
use parts_usage::OrderFault;
use pb_base::{Memory, Text, put_number, put_optional};
use rule_text::put_rule_fault;

/// Puts the line `book fault ROW KIND`, with what the kind has to add.
pub fn put_book_fault(text: &mut Text, fault: &BookFault) -> Result<(), Memory>
    ensures { OnOk result (text.new ≡ text.old ++ book_fault_text fault.now) }
{
    text.put(b"book fault")?;
    put_number(text, u64::from(fault.row))?;
    put_number(text, u64::from(fault.kind.number()))?;
    put_kind_detail(text, &fault.kind)?;
    text.put(b"\n")
}

fn put_kind_detail(text: &mut Text, kind: &BookKind) -> Result<(), Memory>
    ensures { OnOk result (text.new ≡ text.old ++ kind_detail kind.now) }
{
    match kind {
        BookKind::BadRule(fault) => put_rule_fault(text, fault),
        BookKind::Limit(which) => text.put(which_text(which)),
        _ => Ok(()),
    }
}

fn which_text(which: &Which) -> &'static [u8]
    ensures { result.now ≡ which_text which.now }
{
    match which {
        Which::Codes => b" codes",
        Which::Supplements => b" supplements",
        Which::Constructs => b" constructs",
        Which::Modules => b" modules",
        Which::Positions => b" positions",
        Which::Variants => b" variants",
        Which::Choices => b" choices",
        Which::Groups => b" groups",
    }
}

/// Puts the line `order fault KIND`, with the place of the code at fault, counted from 1.
pub fn put_order_fault(text: &mut Text, fault: &OrderFault) -> Result<(), Memory>
    ensures { OnOk result (text.new ≡ text.old ++ order_fault_text fault.now) }
{
    text.put(b"order fault")?;
    put_number(text, u64::from(fault.number()))?;
    put_optional(text, order_place(fault))?;
    text.put(b"\n")?;
    Ok(())
}

fn order_place(fault: &OrderFault) -> Option<u64>
    ensures { result ≡ order_place fault.now }
{
    match fault {
        OrderFault::DayOutsideTerm => None,
        OrderFault::UnknownCode(place) => Some(*place),
        OrderFault::RepeatedCode(place) => Some(*place),
    }
}

/// Puts the line of a limit that checking a book exceeds.
pub fn put_limit_fault(text: &mut Text, fault: &LimitFault) -> Result<(), Memory>
    ensures { OnOk result (text.new ≡ text.old ++ limit_fault_text fault.now) }
{
    put_limit(text, fault)?;
    text.put(b"\n")
}

/// Puts `limit slices COUNT` or `limit questions SLICE COUNT`, without the end of a line.
pub fn put_limit(text: &mut Text, fault: &LimitFault) -> Result<(), Memory>
    ensures { OnOk result (text.new ≡ text.old ++ limit_text fault.now) }
{
    match fault {
        LimitFault::Slices(count) => put_slices(text, u64::from(*count)),
        LimitFault::Questions { slice, count } => put_questions(text, u64::from(*slice), *count),
    }
}

fn put_slices(text: &mut Text, count: u64) -> Result<(), Memory>
    ensures { OnOk result (text.new ≡ text.old ++ limit_text (LimitFault.Slices count)) }
{
    text.put(b"limit slices")?;
    put_number(text, count)?;
    Ok(())
}

fn put_questions(text: &mut Text, slice: u64, count: u64) -> Result<(), Memory>
    ensures { OnOk result (text.new ≡ text.old ++ limit_text (LimitFault.Questions slice count)) }
{
    text.put(b"limit questions")?;
    put_number(text, slice)?;
    put_number(text, count)?;
    Ok(())
}
