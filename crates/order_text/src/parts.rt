//! The lines of a parts list.
ghost use Rattle.std.specs.Prelude.{◌≡◌, ◌++◌, OnOk};
ghost use Rattle.std.specs.List.{flat_map};
ghost use Rattle.order_text.specs.OutcomeText.{part_text, parts_line};

use book_model::{Book, module_id, position_id};
use parts_usage::Line;
use pb_base::{Memory, Text};

pub(crate) fn put_parts(text: &mut Text, book: &Book, lines: &[Line]) -> Result<(), Memory>
    ensures { OnOk result (text.new ≡ text.old ++ flat_map (parts_line book.now) lines.now) }
{
    for line in lines {
        put_parts_line(text, book, line)?;
    }
    Ok(())
}

// `MODULE,POSITION,PART,QUANTITY`.
fn put_parts_line(text: &mut Text, book: &Book, line: &Line) -> Result<(), Memory>
    ensures { OnOk result (text.new ≡ text.old ++ parts_line book.now line.now) }
{
    text.put(module_id(book, line.position))?;
    text.put(b",")?;
    text.put(position_id(book, line.position))?;
    text.put(b",")?;
    put_part(text, book, line.variant)?;
    text.put(b"\n")
}

fn put_part(text: &mut Text, book: &Book, variant: u32) -> Result<(), Memory>
    ensures { OnOk result (text.new ≡ text.old ++ part_text book.now variant) }
{
    match book.variants().get(variant as usize) {
        Some(variant) => {
            text.put(variant.part.bytes())?;
            text.put(b",")?;
            text.put_number(u64::from(variant.quantity))
        }
        None => Ok(()),
    }
}
