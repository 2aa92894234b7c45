//! When a record is active.
ghost use Rattle.std.specs.Prelude.{◌≡◌};
ghost use Rattle.book_model.specs.Activity.{is_within};

use pb_base::Day;

/// Whether a record with this first and last day, both inclusive, is active on a day.
#[inline]
pub fn active(from: Day, until: Day, day: Day) -> bool
    ensures { result ≡ is_within from until day }
{
    from <= day && day <= until
}
