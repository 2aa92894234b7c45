//! Withdrawn books from their rows.
ghost use Rattle.std.specs.Prelude.{◌≡◌, ◌≤◌, [], IfErr, OnOk, None, Some, length};
ghost use Rattle.std.specs.List.{AllByRecursion};
ghost use Rattle.release.specs.Release.{IsRelease};
ghost use Rattle.order_desk.specs.RightRows.{first_wrong, is_withdrawn_row};
ghost use Rattle.order_desk.specs.Rows.{book_rows, withdrawn_rows};
ghost use Rattle.order_desk.specs.declared.limits.TheConstants.{MOST_BOOKS as most_books};

use crate::KeptBook;

/// Puts the books of these numbers out of force, all of which are in force, or answers the place, from 1, of the first number
/// that isn't right.
pub(crate) fn withdraw_all(form: u64, books: &mut Vec<KeptBook>, numbers: &[u64]) -> Result<(), u32>
    requires few { length books.old.items ≤ most_books }
    requires in_force { withdrawn_rows 1 books.old.items ≡ [] }
    requires released { AllByRecursion (λ b. IsRelease b.released) books.old.items }
    ensures right { OnOk result
        (first_wrong (is_withdrawn_row form (book_rows 1 books.old.items)) [] numbers.now ≡ None) }
    ensures rows { OnOk result (withdrawn_rows 1 books.new.items ≡ numbers.now) }
    ensures books { OnOk result (book_rows 1 books.new.items ≡ book_rows 1 books.old.items) }
    ensures still { OnOk result (AllByRecursion (λ b. IsRelease b.released) books.new.items) }
    ensures wrong { IfErr result (λ place.
        first_wrong (is_withdrawn_row form (book_rows 1 books.old.items)) [] numbers.now ≡ Some place) }
{
    let mut last = 0;
    for (place, number) in numbers.iter().enumerate() {
        if form != 2 || *number <= last || *number > books.len() as u64 {
            return Err(place as u32 + 1);
        }
        books[*number as usize - 1].withdrawn = true;
        last = *number;
    }
    Ok(())
}
