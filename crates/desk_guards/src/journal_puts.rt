//! What no stop leaves of a put, and what no failed put does.
ghost use Rattle.std.specs.Prelude.{◌≡◌, ℕ, List, Some, OnErr, OnOk};
ghost use Rattle.journal_keeper.specs.Journal.{kept_in};
ghost use Rattle.journal_keeper.specs.Stage.{seen_by};
ghost use Rattle.keeper.specs.Rows.{with_order};
ghost use Rattle.desk_guards.specs.Puts.{IsSure, IsWithOrWithout};

use disk::Disk;
use journal_keeper::JournalKeeper;
use keeper::{Keeper, OrderRow};
use pb_outside::OutError;

/// A stop in a put would leave rows that were never kept: half a record behind an open gate, or an old one behind a gate that was
/// written anew.
pub fn no_stop_in_a_put_leaves_other_rows<D: Disk>(
    keeper: &mut JournalKeeper<D>,
    row: &OrderRow,
) -> Result<(), OutError>
    ensures { (file image : List ℕ) → IsSure keeper.old.stage → D.content keeper.old.disk ≡ Some file
        → D.left_since keeper.new.disk (D.moment keeper.old.disk) image
        → IsWithOrWithout row.now (seen_by keeper.old.stage file) (kept_in image) }
{
    keeper.put_order(row)
}

/// An order that was answered as placed would be gone after a stop.
pub fn no_stop_loses_an_answered_put<D: Disk>(
    keeper: &mut JournalKeeper<D>,
    row: &OrderRow,
) -> Result<(), OutError>
    ensures { OnOk result ((file file' image : List ℕ) → D.content keeper.old.disk ≡ Some file
        → D.content keeper.new.disk ≡ Some file' → D.may_leave keeper.new.disk image
        → kept_in image ≡ with_order row.now (seen_by keeper.old.stage file)) }
{
    keeper.put_order(row)
}

/// An order whose put failed, and which the caller so was told not to be kept, would come up behind a later one that was kept.
pub fn no_failed_put_comes_back<D: Disk>(
    keeper: &mut JournalKeeper<D>,
    failed: &OrderRow,
    row: &OrderRow,
) -> (Result<(), OutError>, Result<(), OutError>)
    ensures { OnErr result.0 (OnOk result.1 ((file file' image : List ℕ) → D.content keeper.old.disk ≡ Some file
        → D.content keeper.new.disk ≡ Some file' → D.may_leave keeper.new.disk image
        → kept_in image ≡ with_order row.now (seen_by keeper.old.stage file))) }
{
    let first = keeper.put_order(failed);
    let second = keeper.put_order(row);
    (first, second)
}
