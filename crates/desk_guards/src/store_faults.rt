//! How no failure of a store is told.
ghost use Rattle.std.specs.Prelude.{◌≡◌, Err};
ghost use Rattle.pb_base.specs.declared.answer.Fail.TheVariants as Fail;
ghost use Rattle.pb_outside.specs.Faults.{Rose};
ghost use Rattle.pb_outside.specs.declared.error.OutError.TheVariants as OutError;

use keeper::counted;
use pb_base::Fail;
use pb_outside::{FaultCount, OutError};

/// A store would fail again and again, and the counts of the service would show none of it.
pub fn no_failure_is_left_uncounted<T: Drop, E: Drop>(
    faults: &mut FaultCount,
    done: Result<T, Fail<E>>,
) -> Result<T, OutError>
    ensures { (why : E) → done ≡ Err (Fail.Refused why) → Rose faults.old faults.new }
{
    counted(faults, done)
}

/// Who is told of want of memory tries again, though the store has failed.
pub fn no_failure_is_told_as_want_of_memory<T: Drop, E: Drop>(
    faults: &mut FaultCount,
    done: Result<T, Fail<E>>,
) -> Result<T, OutError>
    ensures { (why : E) → done ≡ Err (Fail.Refused why) → result ≡ Err OutError.Failed }
{
    counted(faults, done)
}
