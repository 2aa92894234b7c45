//! Numbers in lines of text.
ghost use Rattle.std.specs.Prelude.{◌≡◌, ◌++◌, OnOk};
ghost use Rattle.pb_base.specs.Lines.{number_behind, optional_number, days_text};

use crate::answer::Memory;
use crate::day::Day;
use crate::text::Text;

/// Puts a space and a number behind a text.
pub fn put_number(text: &mut Text, number: u64) -> Result<(), Memory>
    ensures { OnOk result (text.new ≡ text.old ++ number_behind number) }
{
    text.put(b" ")?;
    text.put_number(number)
}

/// The same where there is a number.
pub fn put_optional(text: &mut Text, number: Option<u64>) -> Result<(), Memory>
    ensures { OnOk result (text.new ≡ text.old ++ optional_number number) }
{
    match number {
        Some(number) => put_number(text, number),
        None => Ok(()),
    }
}

/// Puts the line `slice FIRST LAST` behind a text.
pub fn put_days(text: &mut Text, first: Day, last: Day) -> Result<(), Memory>
    ensures { OnOk result (text.new ≡ text.old ++ days_text first last) }
{
    text.put(b"slice")?;
    put_number(text, u64::from(first))?;
    put_number(text, u64::from(last))?;
    text.put(b"\n")
}
